//! Numbers from the tables of forms, of spaces and of texts.
ghost use Rattle.std.specs.Prelude.{◌≡◌, ◌<◌, IfOk, IfSome, IfNone, List, true, map, string_bytes, bytes_eq};
ghost use Rattle.indexmap.specs.IndexMap.{spare};
ghost use Rattle.tall_graph.specs.Numbers.{Grows, IsLookedUp, IsNumber};
ghost use Rattle.tall_graph.specs.KeyTests.{form_same, space_same};

use crate::keys::{FormKey, SpaceKey};
use indexmap::{IndexMap, IndexSet};
use std::alloc::{AllocError, Global};
use std::hash::Hash;

/// A key of a table: equal keys are equal values.
pub(crate) trait Key: Eq + Hash + Copy {
    ghost use Rattle.std.specs.Prelude.{◌≡◌, true};

    ghost exact: { (a b : Self) → Self.eq a b ≡ true → a ≡ b };
}

impl Key for FormKey {
    ghost exact = { form_same };
}

impl Key for SpaceKey {
    ghost exact = { space_same };
}

/// The key's number; a key that isn't there gets the number `place`.
pub(crate) fn number_of<K: Key>(table: &mut IndexMap<K, usize>, key: K, place: usize) -> usize
    requires { 0 < spare table.old }
    ensures { IsLookedUp table.old.entries key place result table.new.entries }
{
    match table.get(&key) {
        Some(number) => *number,
        None => {
            let _ = table.insert(key, place);
            place
        }
    }
}

/// The number of a text, which is kept where it wasn't there.
pub(crate) fn text_number(
    alloc: Global,
    texts: &mut IndexSet<String>,
    text: &str,
) -> Result<usize, AllocError>
    ensures number { IfOk result (λ n. IsNumber bytes_eq (map string_bytes texts.new.keys) n text.now) }
    ensures grows { Grows (map string_bytes texts.old.keys) (map string_bytes texts.new.keys) }
{
    match texts.get_index_of(text) {
        Some(number) => Ok(number),
        None => {
            let kept = String::from_str(alloc, text)?;
            let (number, _) = texts.insert_full(kept)?;
            Ok(number)
        }
    }
}
