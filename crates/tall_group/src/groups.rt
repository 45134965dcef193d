//! Groups: keys, and a state for each.
ghost use Rattle.std.specs.Prelude.{◌≡◌, ◌<◌, ◌+◌, ◌++◌, ◌^◌, ℤ, [], ◌∷◌, IfErr, IfOk, List, length, take};
ghost use Rattle.tall_value.specs.Cells.{Seen, seen, seen_kind};
ghost use Rattle.tall_dense.specs.Columns.{class_of_cell};
ghost use Rattle.std.specs.List.{All};
ghost use Rattle.tall_value.specs.Classes.{kind_of};
ghost use Rattle.tall_value.specs.Columns.{HasKind};
ghost use Rattle.tall_group.specs.Groups.{IsGroupsOf};
ghost use Rattle.tall_group.specs.Keys.{Begins};
ghost use Rattle.tall_group.specs.States.{IsRange, high_of, low_of};

use crate::places::{datum_of, extend, fill, join_all, step_in, step_rows};
use crate::states::GroupState;
use crate::table::KeyTable;
use std::alloc::AllocError;
use tall_column::Column;
use tall_value::{Cell, Kind};

/// The first keys and states alone, so many.
fn keep<S: GroupState>(table: &mut KeyTable, states: &mut Vec<S>, keys: usize, count: usize)
    ensures class { table.new.class ≡ table.old.class }
    ensures keys { table.new.cells ≡ take keys table.old.cells }
    ensures states { states.new.items ≡ take count states.old.items }
{
    table.truncate(keys);
    states.truncate(count);
}

/// The groups with the rows of two columns behind: the keys and the data. Refused for want of memory alone, with some keys
/// and states behind.
fn added_rows<S: GroupState>(
    table: &mut KeyTable,
    states: &mut Vec<S>,
    keys: &Column,
    values: &Column,
) -> Result<(), AllocError>
    requires class { keys.now.class ≡ table.old.class }
    requires even { length keys.now.cells ≡ length values.now.cells }
    requires groups { (ks vs : List Seen) × IsGroupsOf (S.of (low_of (kind_of values.now.class)) (high_of (kind_of values.now.class))) table.old.cells states.old.items ks vs × (length ks + length keys.now.cells < 2 ^ 40) }
    ensures class { table.new.class ≡ table.old.class }
    ensures kinds { IfOk result (λ _. All (HasKind (kind_of keys.now.class)) keys.now.cells × All (HasKind (kind_of values.now.class)) values.now.cells) }
    ensures groups { (ks vs : List Seen) → IsGroupsOf (S.of (low_of (kind_of values.now.class)) (high_of (kind_of values.now.class))) table.old.cells states.old.items ks vs → length ks + length keys.now.cells < 2 ^ 40
        → IfOk result (λ _. IsGroupsOf (S.of (low_of (kind_of values.now.class)) (high_of (kind_of values.now.class))) table.new.cells states.new.items (ks ++ keys.now.cells) (vs ++ values.now.cells)) }
    ensures refused { IfErr result (λ _. Begins table.old.cells table.new.cells × Begins states.old.items states.new.items) }
{
    let places = table.place_rows(keys)?;
    extend(states, table.len())?;
    step_rows(states, places.as_slice(), values);
    Ok(())
}

/// The groups with the rows of two columns behind: the keys and the data. Refused for want of memory alone, with the groups
/// as they were.
pub(crate) fn add_rows<S: GroupState>(
    table: &mut KeyTable,
    states: &mut Vec<S>,
    keys: &Column,
    values: &Column,
) -> Result<(), AllocError>
    requires class { keys.now.class ≡ table.old.class }
    requires even { length keys.now.cells ≡ length values.now.cells }
    requires groups { (ks vs : List Seen) × IsGroupsOf (S.of (low_of (kind_of values.now.class)) (high_of (kind_of values.now.class))) table.old.cells states.old.items ks vs × (length ks + length keys.now.cells < 2 ^ 40) }
    ensures class { table.new.class ≡ table.old.class }
    ensures kinds { IfOk result (λ _. All (HasKind (kind_of keys.now.class)) keys.now.cells × All (HasKind (kind_of values.now.class)) values.now.cells) }
    ensures groups { (ks vs : List Seen) → IsGroupsOf (S.of (low_of (kind_of values.now.class)) (high_of (kind_of values.now.class))) table.old.cells states.old.items ks vs → length ks + length keys.now.cells < 2 ^ 40
        → IfOk result (λ _. IsGroupsOf (S.of (low_of (kind_of values.now.class)) (high_of (kind_of values.now.class))) table.new.cells states.new.items (ks ++ keys.now.cells) (vs ++ values.now.cells)) }
    ensures refused { IfErr result (λ _. (table.new.cells ≡ table.old.cells) × (states.new.items ≡ states.old.items)) }
{
    let before = table.len();
    let count = states.len();
    match added_rows(table, states, keys, values) {
        Ok(()) => Ok(()),
        Err(refused) => {
            keep(table, states, before, count);
            Err(refused)
        }
    }
}

/// The groups with one row behind; refused for want of memory alone, with the groups as they were.
pub(crate) fn add_row<S: GroupState>(
    table: &mut KeyTable,
    states: &mut Vec<S>,
    key: &Cell<'_>,
    value: &Cell<'_>,
) -> Result<(), AllocError>
    requires class { class_of_cell (seen key.now) ≡ table.old.class }
    requires groups { (ks vs : List Seen) × IsGroupsOf (S.of (low_of (seen_kind (seen value.now))) (high_of (seen_kind (seen value.now)))) table.old.cells states.old.items ks vs × (length ks + 1 < 2 ^ 40) }
    ensures class { table.new.class ≡ table.old.class }
    ensures groups { (ks vs : List Seen) → IsGroupsOf (S.of (low_of (seen_kind (seen value.now))) (high_of (seen_kind (seen value.now)))) table.old.cells states.old.items ks vs → length ks + 1 < 2 ^ 40
        → IfOk result (λ _. IsGroupsOf (S.of (low_of (seen_kind (seen value.now))) (high_of (seen_kind (seen value.now)))) table.new.cells states.new.items (ks ++ seen key.now ∷ []) (vs ++ seen value.now ∷ [])) }
    ensures refused { IfErr result (λ _. (table.new.cells ≡ table.old.cells) × (states.new.items ≡ states.old.items)) }
{
    states.reserve(1)?;
    let place = table.place(key)?;
    fill(states, table.len());
    step_in(states, place, cell_kind(value), datum_of(value));
    Ok(())
}

fn cell_kind(cell: &Cell<'_>) -> Kind
    ensures { result ≡ seen_kind (seen cell.now) }
{
    cell.content().kind()
}

/// The groups with later ones behind. Refused for want of memory alone, with some keys and states behind.
fn joined_groups<S: GroupState>(
    table: &mut KeyTable,
    states: &mut Vec<S>,
    later_keys: &KeyTable,
    later: &[S],
) -> Result<(), AllocError>
    requires class { later_keys.now.class ≡ table.old.class }
    requires groups { (low high : ℤ) × IsRange low high × (ks vs js ws : List Seen) × IsGroupsOf (S.of low high) table.old.cells states.old.items ks vs × IsGroupsOf (S.of low high) later_keys.now.cells later.now js ws × (length ks + length js < 2 ^ 40) }
    ensures class { table.new.class ≡ table.old.class }
    ensures groups { (low high : ℤ) (ks vs js ws : List Seen) → IsRange low high → IsGroupsOf (S.of low high) table.old.cells states.old.items ks vs → IsGroupsOf (S.of low high) later_keys.now.cells later.now js ws → length ks + length js < 2 ^ 40
        → IfOk result (λ _. IsGroupsOf (S.of low high) table.new.cells states.new.items (ks ++ js) (vs ++ ws)) }
    ensures refused { IfErr result (λ _. Begins table.old.cells table.new.cells × Begins states.old.items states.new.items) }
{
    let places = table.place_keys(later_keys)?;
    extend(states, table.len())?;
    join_all(states, places.as_slice(), later);
    Ok(())
}

/// The groups with later ones behind. Refused for want of memory alone, with the groups as they were.
pub(crate) fn join_groups<S: GroupState>(
    table: &mut KeyTable,
    states: &mut Vec<S>,
    later_keys: &KeyTable,
    later: &[S],
) -> Result<(), AllocError>
    requires class { later_keys.now.class ≡ table.old.class }
    requires groups { (low high : ℤ) × IsRange low high × (ks vs js ws : List Seen) × IsGroupsOf (S.of low high) table.old.cells states.old.items ks vs × IsGroupsOf (S.of low high) later_keys.now.cells later.now js ws × (length ks + length js < 2 ^ 40) }
    ensures class { table.new.class ≡ table.old.class }
    ensures groups { (low high : ℤ) (ks vs js ws : List Seen) → IsRange low high → IsGroupsOf (S.of low high) table.old.cells states.old.items ks vs → IsGroupsOf (S.of low high) later_keys.now.cells later.now js ws → length ks + length js < 2 ^ 40
        → IfOk result (λ _. IsGroupsOf (S.of low high) table.new.cells states.new.items (ks ++ js) (vs ++ ws)) }
    ensures refused { IfErr result (λ _. (table.new.cells ≡ table.old.cells) × (states.new.items ≡ states.old.items)) }
{
    let before = table.len();
    let count = states.len();
    match joined_groups(table, states, later_keys, later) {
        Ok(()) => Ok(()),
        Err(refused) => {
            keep(table, states, before, count);
            Err(refused)
        }
    }
}
