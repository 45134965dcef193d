//! Keys as they are compared.
ghost use Rattle.std.specs.Prelude.{◌≡◌, ◌++◌, ◌∷◌, [], IfOk, if◌then◌else◌, map, not};
ghost use Rattle.std.specs.List.{list_any, position_or_len};
ghost use Rattle.tall_value.specs.Cells.{seen};
ghost use Rattle.tall_kv.specs.ByKey.{is_this_key};
ghost use Rattle.tall_kv.specs.Keys.{key_seen, without_class};

use indexmap::IndexSet;
use std::alloc::AllocError;
use tall_value::{Cell, Content};

/// A key: keys of one class are equal exactly where their cells are.
#[derive(Clone, Copy, Debug, PartialEq, Eq, Hash)]
pub(crate) enum Key<'a> {
    Whole(i128),
    Logical(bool),
    Double(Option<i128>),
    Text(&'a str),
}

impl<'a> Key<'a> {
    /// The key of a cell.
    pub(crate) fn of(cell: &Cell<'a>) -> Key<'a>
        ensures { key_seen result ≡ without_class (seen cell.now) }
    {
        match cell.content() {
            Content::Whole(_, n) => Key::Whole(n),
            Content::Logical(b) => Key::Logical(b),
            Content::Double(_) => Key::Double(cell.amount()),
            Content::Text(t) => Key::Text(t),
        }
    }
}

/// The place of a cell's key among those that were met, and whether it is new; then it is met from now on.
pub(crate) fn place<'a>(
    met: &mut IndexSet<Key<'a>>,
    cell: &Cell<'a>,
) -> Result<(usize, bool), AllocError>
    ensures place { IfOk result (λ r. r.0 ≡ position_or_len (is_this_key (seen cell.now)) (map key_seen met.old.keys)) }
    ensures new { IfOk result (λ r. r.1 ≡ not (list_any (is_this_key (seen cell.now)) (map key_seen met.old.keys))) }
    ensures keys { IfOk result (λ r. map key_seen met.new.keys ≡ (if r.1 then map key_seen met.old.keys ++ without_class (seen cell.now) ∷ [] else map key_seen met.old.keys)) }
{
    let found = met.insert_full(Key::of(cell))?;
    Ok(found)
}
