//! The columns that groups give.
ghost use Rattle.std.specs.Prelude.{◌≡◌, ◌<◌, ◌++◌, ◌^◌, ℕ, pos, [], ◌∷◌, IfOk, IfSome, List, None, Some, get_or, length, map, option_map};
ghost use Rattle.std.specs.List.{All};
ghost use Rattle.tall_value.specs.declared.class.Class.TheVariants as class;
ghost use Rattle.tall_value.specs.Cells.{Seen, double, seen};
ghost use Rattle.tall_value.specs.Classes.{class_of, kind_of};
ghost use Rattle.tall_value.specs.Columns.{HasKind};
ghost use Rattle.tall_value.specs.Groups.{group_counts, group_keys};
ghost use Rattle.tall_group.specs.Groups.{IsGroupsOf};
ghost use Rattle.tall_group.specs.Places.{AreOf, Data};
ghost use Rattle.tall_group.specs.States.{high_of, low_of};
ghost use Rattle.tall_group.specs.Summaries.{AreEven, all_columns, all_some, cells_of, columns_given, count_at, named_columns};
ghost use Rattle.tall_column.specs.Tables.{FitsHeight, column_named};

use crate::states::GroupState;
use crate::table::KeyTable;
use std::alloc::{AllocError, Global};
use tall_column::{Column, Table};
use tall_int::Whole;
use tall_value::{Cell, Class, Kind};

/// What a summary of groups has, a row for each group in rising order of their keys; the groups of NaN are one, last.
#[derive(Drop)]
pub struct GroupColumns {
    /// The key of each group.
    pub key: Column,
    /// The rows of each group, as doubles.
    pub count: Column,
    /// What the method gives of each group's data; none where it only counts.
    pub value: Option<Column>,
}

/// The cell of a number of rows.
fn count_cell<'a>(count: u64) -> Cell<'a>
    requires { count < 2 ^ 40 }
    ensures { seen result ≡ double (Some (pos count)) }
{
    match Whole::new(count as i64) {
        Some(number) => Cell::Double(number),
        None => unreachable!(),
    }
}

/// The rows of each group, at these places in turn.
fn counts<S: GroupState>(
    alloc: Global,
    states: &[S],
    places: &[usize],
) -> Result<Column, AllocError>
    requires within { (i d : ℕ) → i < length places.now → get_or places.now i d < length states.now }
    requires few { (p : ℕ) (d : S) → p < length states.now → S.rows (get_or states.now p d) < 2 ^ 40 }
    ensures { IfOk result (λ c. c ≡ record { class = class.Double; cells = map (count_at S.rows S.nothing states.now) places.now }) }
{
    let mut column = Column::with_capacity(alloc, Class::Double, places.len())?;
    for i in 0..places.len() {
        column.push(&count_cell(states[places[i]].count()))?;
    }
    Ok(column)
}

/// What the data of each group give, at these places in turn; none where one is a double above 2^53 in magnitude.
fn values<S: GroupState>(
    alloc: Global,
    kind: Kind,
    states: &[S],
    places: &[usize],
) -> Result<Option<Column>, AllocError>
    requires within { (i d : ℕ) → i < length places.now → get_or places.now i d < length states.now }
    ensures class { IfOk result (λ o. IfSome o (λ c. c.class ≡ class_of (S.kind_given kind))) }
    ensures cells { (at : ℕ → Data) → AreOf (S.of (low_of kind) (high_of kind)) at states.now → IfOk result (λ o. option_map (λ c. c.cells) o ≡ all_some (map (λ p. S.gives kind (at p)) places.now)) }
{
    let class = S::value_kind(kind).class();
    let mut column = Column::with_capacity(alloc, class, places.len())?;
    for i in 0..places.len() {
        match states[places[i]].value(kind) {
            Some(cell) => column.push(&cell)?,
            None => return Ok(None),
        }
    }
    Ok(Some(column))
}

/// The keys and the rows of groups.
pub(crate) fn counted<S: GroupState>(
    keys: KeyTable,
    states: &[S],
    kind: Kind,
) -> Result<Option<GroupColumns>, AllocError>
    requires groups { (ks vs : List Seen) × IsGroupsOf (S.of (low_of kind) (high_of kind)) keys.cells states.now ks vs }
    ensures classes { IfOk result (λ o. IfSome o (λ g. map (λ c. c.class) (all_columns g) ≡ keys.class ∷ class.Double ∷ [])) }
    ensures cells { (ks vs : List Seen) → IsGroupsOf (S.of (low_of kind) (high_of kind)) keys.cells states.now ks vs → All (HasKind (kind_of keys.class)) ks → IfOk result (λ o. option_map cells_of o ≡ Some (group_keys ks ∷ group_counts ks ∷ [])) }
{
    let alloc = keys.alloc();
    let sorted = keys.sorted()?;
    let count = counts(alloc, states, sorted.places.as_slice())?;
    Ok(Some(GroupColumns {
        key: sorted.column,
        count,
        value: None,
    }))
}

/// The keys and the rows of groups, and what their data give.
pub(crate) fn summarised<S: GroupState>(
    keys: KeyTable,
    states: &[S],
    kind: Kind,
) -> Result<Option<GroupColumns>, AllocError>
    requires groups { (ks vs : List Seen) × IsGroupsOf (S.of (low_of kind) (high_of kind)) keys.cells states.now ks vs }
    ensures classes { IfOk result (λ o. IfSome o (λ g. map (λ c. c.class) (all_columns g) ≡ keys.class ∷ class.Double ∷ class_of (S.kind_given kind) ∷ [])) }
    ensures cells { (ks vs : List Seen) → IsGroupsOf (S.of (low_of kind) (high_of kind)) keys.cells states.now ks vs → All (HasKind (kind_of keys.class)) ks → IfOk result (λ o. option_map cells_of o ≡ columns_given (S.gives kind) ks vs) }
{
    let alloc = keys.alloc();
    let sorted = keys.sorted()?;
    let count = counts(alloc, states, sorted.places.as_slice())?;
    let given = values(alloc, kind, states, sorted.places.as_slice())?;
    match given {
        Some(value) => Ok(Some(GroupColumns {
            key: sorted.column,
            count,
            value: Some(value),
        })),
        None => Ok(None),
    }
}

/// Adds a column to a table.
fn put(table: &mut Table, name: &str, column: Column) -> Result<(), AllocError>
    requires new_name { column_named name.now table.old ≡ None }
    requires same_height { FitsHeight (length column.cells) table.old }
    ensures { IfOk result (λ _. table.new ≡ table.old ++ (name.now, column) ∷ []) }
{
    match table.add(name, column) {
        Ok(()) => Ok(()),
        Err(_) => Err(AllocError),
    }
}

/// The columns as a table.
pub(crate) fn named(alloc: Global, columns: GroupColumns) -> Result<Table, AllocError>
    requires { AreEven columns }
    ensures { IfOk result (λ t. t ≡ named_columns columns) }
{
    let mut table = Table::new(alloc);
    put(&mut table, "key", columns.key)?;
    put(&mut table, "count", columns.count)?;
    if let Some(value) = columns.value {
        put(&mut table, "value", value)?;
    }
    Ok(table)
}
