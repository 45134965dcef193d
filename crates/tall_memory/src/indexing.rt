//! Indexes of values in memory, the variables of a table, and names that have a value of their own (docs/LANGUAGE.md,
//! operators).
ghost use Rattle.std.specs.Prelude.{◌≡◌, ◌<◌, ◌+◌, ◌++◌, ◌∷◌, [], IfNone, IfOk, IfSome, None, OnOk, Some, length, option_map, pos, ℕ};
ghost use Rattle.tall_value.specs.declared.class.Class.TheVariants as class;
ghost use Rattle.tall_value.specs.Cells.{seen};
ghost use Rattle.tall_value.specs.Index.{cell_at};
ghost use Rattle.tall_column.specs.Columns.{rows_kept};
ghost use Rattle.tall_column.specs.Tables.{FitsHeight, column_named, height_of};
ghost use Rattle.tall_local.specs.Constants.{constant_named};
ghost use Rattle.tall_local.specs.Memory as memory;
ghost use Rattle.tall_local.specs.Memory.{scalar};
ghost use Rattle.tall_local.specs.MemoryIndexing.{if_mask, indexed_cell, is_logical, memory_column_index, memory_index, memory_masked, memory_member, memory_table_index};
ghost use Rattle.tall_local.specs.Names.{each_named};
ghost use Rattle.tall_memory.specs.Indexes.{index_seen};
ghost use Rattle.tall_memory.specs.Values.{Gives, Lends, ref_seen};

use crate::faults::MemoryFault;
use crate::values::{MemoryRef, MemoryValue};
use std::alloc::{AllocError, Global};
use tall_column::{Column, Table};
use tall_int::Whole;
use tall_value::{Cell, Class, Content, Name};

/// What stands between the parentheses of an index.
#[derive(Clone, Copy)]
pub enum Index<'a> {
    /// `x(i)`
    Rows(MemoryRef<'a>),
    /// `T(i, :)`
    AllVariables(MemoryRef<'a>),
    /// any other arguments
    OtherForm,
}

fn is_logical(class: Class) -> bool
    ensures { result ≡ is_logical class }
{
    matches!(class, Class::Logical)
}

/// The row, counted from 0, that a number counts from 1, if there is one.
fn row_of(k: Option<i128>, rows: usize) -> Option<usize>
    ensures within { IfSome result (λ i. i < rows) }
    ensures row { IfSome result (λ i. k ≡ Some (pos (i + 1))) }
    ensures none { IfNone result ((i : ℕ) → i < rows → k ≡ Some (pos (i + 1)) → ⊥) }
{
    let n = k?;
    if n >= 1 && n <= rows as i128 {
        Some((n - 1) as usize)
    } else {
        None
    }
}

/// The cell of a row, counted from 1.
fn indexed(alloc: Global, x: &Column, k: Option<i128>) -> Result<MemoryValue, MemoryFault>
    ensures { Gives (indexed_cell (cell_at k x.now.cells)) result }
{
    match row_of(k, x.len()) {
        Some(row) => MemoryValue::scalar(alloc, &x.get(row)),
        None => Err(MemoryFault::BadIndex),
    }
}

fn at_cell(alloc: Global, x: &Column, k: &Cell<'_>) -> Result<MemoryValue, MemoryFault>
    ensures { Gives (memory_column_index x.now (scalar (seen k.now))) result }
{
    match k.content() {
        Content::Double(_) => indexed(alloc, x, k.amount()),
        Content::Whole(_, _) => Err(MemoryFault::BadArgument),
        Content::Logical(_) => Err(MemoryFault::BadArgument),
        Content::Text(_) => Err(MemoryFault::BadArgument),
    }
}

/// The rows that a mask of the same length keeps.
fn masked(x: &Column, mask: &Column) -> Result<MemoryValue, MemoryFault>
    ensures { Gives (if_mask mask.now (memory_masked x.now mask.now)) result }
{
    if !is_logical(mask.class()) {
        return Err(MemoryFault::BadArgument);
    }
    if x.len() != mask.len() {
        return Err(MemoryFault::BadSize);
    }
    Ok(MemoryValue::column(x.filter(mask)?))
}

fn column_at(alloc: Global, x: &Column, i: &MemoryRef<'_>) -> Result<MemoryValue, MemoryFault>
    ensures { Gives (memory_column_index x.now (ref_seen i.now)) result }
{
    match i {
        MemoryRef::Scalar(k) => at_cell(alloc, x, k),
        MemoryRef::Column(mask) => masked(x, mask),
        MemoryRef::Table(_) => Err(MemoryFault::BadArgument),
        MemoryRef::Texts(_) => Err(MemoryFault::BadArgument),
    }
}

#[tactic(auto, unfolding(tall_local::specs::MemoryIndexing::memory_index))]
fn column_index(alloc: Global, x: &Column, index: &Index<'_>) -> Result<MemoryValue, MemoryFault>
    ensures { Gives (memory_index (memory.column x.now) (index_seen index.now)) result }
{
    match index {
        Index::Rows(i) => column_at(alloc, x, i),
        Index::AllVariables(_) => Err(MemoryFault::BadArgument),
        Index::OtherForm => Err(MemoryFault::BadArgument),
    }
}

/// Adds a variable; after a refusal the table is only dropped.
pub fn add_variable(t: &mut Table, name: &str, x: Column) -> Result<(), AllocError>
    requires new_name { column_named name.now t.old ≡ None }
    requires same_height { FitsHeight (length x.cells) t.old }
    ensures { OnOk result (t.new ≡ t.old ++ (name.now, x) ∷ []) }
{
    match t.add(name, x) {
        Ok(()) => Ok(()),
        Err(_) => Err(AllocError),
    }
}

/// The rows of each variable that a mask keeps.
fn kept_rows(alloc: Global, t: &Table, mask: &Column) -> Result<Table, AllocError>
    requires logical { mask.now.class ≡ class.Logical }
    requires same_height { height_of t.now ≡ length mask.now.cells }
    ensures { IfOk result (λ u. u ≡ each_named (λ x. rows_kept x mask.now) t.now) }
{
    let mut kept = Table::new(alloc);
    for i in 0..t.width() {
        let x = t.at(i).filter(mask)?;
        add_variable(&mut kept, t.name(i), x)?;
    }
    Ok(kept)
}

fn rows_masked(alloc: Global, t: &Table, mask: &Column) -> Result<MemoryValue, MemoryFault>
    ensures { Gives (memory_table_index t.now (memory.column mask.now)) result }
{
    if !is_logical(mask.class()) {
        return Err(MemoryFault::BadArgument);
    }
    if t.height() != mask.len() {
        return Err(MemoryFault::BadSize);
    }
    Ok(MemoryValue::table(kept_rows(alloc, t, mask)?))
}

fn rows_at(alloc: Global, t: &Table, i: &MemoryRef<'_>) -> Result<MemoryValue, MemoryFault>
    ensures { Gives (memory_table_index t.now (ref_seen i.now)) result }
{
    match i {
        MemoryRef::Column(mask) => rows_masked(alloc, t, mask),
        MemoryRef::Scalar(_) => Err(MemoryFault::BadArgument),
        MemoryRef::Table(_) => Err(MemoryFault::BadArgument),
        MemoryRef::Texts(_) => Err(MemoryFault::BadArgument),
    }
}

#[tactic(auto, unfolding(tall_local::specs::MemoryIndexing::memory_index))]
fn table_index(alloc: Global, t: &Table, index: &Index<'_>) -> Result<MemoryValue, MemoryFault>
    ensures { Gives (memory_index (memory.table t.now) (index_seen index.now)) result }
{
    match index {
        Index::AllVariables(i) => rows_at(alloc, t, i),
        Index::Rows(_) => Err(MemoryFault::BadArgument),
        Index::OtherForm => Err(MemoryFault::BadArgument),
    }
}

#[tactic(auto, unfolding(tall_local::specs::MemoryIndexing::memory_index))]
/// A row of a column by its place from 1, the rows of a column or of a table that a mask keeps.
pub fn memory_index(
    alloc: Global,
    v: &MemoryRef<'_>,
    index: &Index<'_>,
) -> Result<MemoryValue, MemoryFault>
    ensures { Gives (memory_index (ref_seen v.now) (index_seen index.now)) result }
{
    match v {
        MemoryRef::Column(x) => column_index(alloc, x, index),
        MemoryRef::Table(t) => table_index(alloc, t, index),
        MemoryRef::Scalar(_) => Err(MemoryFault::BadArgument),
        MemoryRef::Texts(_) => Err(MemoryFault::BadArgument),
    }
}

#[tactic(auto, unfolding(tall_local::specs::MemoryIndexing::memory_member))]
fn variable<'a>(alloc: Global, t: &'a Table, name: &str) -> Result<MemoryRef<'a>, MemoryFault>
    ensures { Lends (memory_member (memory.table t.now) name.now) result }
{
    match t.column(name) {
        Some(x) => Ok(MemoryRef::Column(x)),
        None => match Name::of(alloc, name) {
            Ok(name) => Err(MemoryFault::Undefined(name)),
            Err(_) => Err(MemoryFault::Memory),
        },
    }
}

#[tactic(auto, unfolding(tall_local::specs::MemoryIndexing::memory_member))]
/// A variable of a table, which is lent and not copied.
pub fn memory_member<'a>(
    alloc: Global,
    v: &MemoryRef<'a>,
    name: &str,
) -> Result<MemoryRef<'a>, MemoryFault>
    ensures { Lends (memory_member (ref_seen v.now) name.now) result }
{
    match v {
        MemoryRef::Table(t) => variable(alloc, t, name),
        MemoryRef::Scalar(_) => Err(MemoryFault::BadArgument),
        MemoryRef::Column(_) => Err(MemoryFault::BadArgument),
        MemoryRef::Texts(_) => Err(MemoryFault::BadArgument),
    }
}

#[tactic(auto, unfolding(tall_local::specs::Constants::constant_named))]
/// The value of `true`, `false` or `NaN`, which a name has while no variable hides it.
pub fn constant_named(name: &str) -> Option<Cell<'static>>
    ensures { option_map seen result ≡ constant_named name.now }
{
    if "true" == name {
        Some(Cell::Logical(true))
    } else if "false" == name {
        Some(Cell::Logical(false))
    } else if "NaN" == name {
        Some(Cell::Double(Whole::nan()))
    } else {
        None
    }
}
