//! Reductions of values in memory (docs/LANGUAGE.md, functions: sum, min, max, any, all, nnz, numel, height).
ghost use Rattle.std.specs.Prelude.{◌≡◌, ◌∷◌, [], IfOk, Ok, Result, length};
ghost use Rattle.tall_value.specs.declared.class.Class.{Class};
ghost use Rattle.tall_value.specs.declared.faults.FaultKind.{FaultKind};
ghost use Rattle.tall_value.specs.declared.functions.Reduction.{Reduction};
ghost use Rattle.tall_value.specs.Cells.{Seen, seen, seen_kind};
ghost use Rattle.tall_value.specs.FunctionClasses.{reduction_kind};
ghost use Rattle.tall_value.specs.Reductions.{reduced};
ghost use Rattle.tall_dense.specs.Columns.{class_of_cell};
ghost use Rattle.tall_fold.specs.Summaries.{Finishes};
ghost use Rattle.tall_local.specs.Memory.{kind_of_column, scalar};
ghost use Rattle.tall_local.specs.MemoryFunctions.{count_cell, memory_height, memory_reduce, total_result};
ghost use Rattle.tall_local.specs.MemoryOperators.{with_kind};
ghost use Rattle.tall_memory.specs.Values.{Gives, ref_seen};

use std::alloc::{AllocError, Global};
use tall_clamp::FinishFault;
use tall_column::Column;
use tall_fold::summarise;
use tall_int::Whole;
use tall_memory::{MemoryFault, MemoryRef, MemoryValue, refused_class};
use tall_value::{Cell, FaultKind, Reduction, reduction_class};

/// Folds take fewer rows than this; no memory holds so many.
pub(crate) const MOST_ROWS: usize = 1 << 40;

/// The number of rows of a table.
fn rows_counted(alloc: Global, rows: usize) -> Result<MemoryValue, MemoryFault>
    ensures { Gives (Ok (scalar (count_cell rows))) result }
{
    if rows >= MOST_ROWS {
        return Err(MemoryFault::Memory);
    }
    match Whole::new(rows as i64) {
        Some(count) => MemoryValue::scalar(alloc, &Cell::Double(count)),
        None => Err(MemoryFault::Memory),
    }
}

/// `height(T)`: the number of rows of a table; of another value BadClass.
pub fn memory_height(alloc: Global, v: &MemoryRef<'_>) -> Result<MemoryValue, MemoryFault>
    ensures { Gives (memory_height (ref_seen v.now)) result }
{
    match v {
        MemoryRef::Table(t) => rows_counted(alloc, t.height()),
        MemoryRef::Scalar(_) => Err(MemoryFault::BadClass),
        MemoryRef::Column(_) => Err(MemoryFault::BadClass),
        MemoryRef::Texts(_) => Err(MemoryFault::BadClass),
    }
}

/// The only row of a column, as a scalar.
fn only_row(alloc: Global, column: &Column) -> Result<MemoryValue, MemoryFault>
    requires { length column.now.cells ≡ 1 }
    ensures { (c : Seen) → column.now.cells ≡ c ∷ [] → Gives (Ok (scalar c)) result }
{
    MemoryValue::scalar(alloc, &column.get(0))
}

/// The scalar that a summary finishes with; a fault of all rows has no row.
fn total_answer(
    alloc: Global,
    finished: Result<Column, FinishFault>,
) -> Result<MemoryValue, MemoryFault>
    requires { IfOk finished (λ c. length c.cells ≡ 1) }
    ensures { (found : Result Seen FaultKind) (r : Reduction) (class : Class) → Finishes found r class finished → Gives (total_result found) result }
{
    match finished {
        Ok(column) => only_row(alloc, &column),
        Err(FinishFault::Inexact) => Err(MemoryFault::Data {
            row: None,
            kind: FaultKind::Inexact,
        }),
        Err(FinishFault::NoRows) => Err(MemoryFault::Data {
            row: None,
            kind: FaultKind::NoRows,
        }),
        Err(FinishFault::Memory) => Err(MemoryFault::Memory),
    }
}

fn column_reduced(alloc: Global, r: Reduction, x: &Column) -> Result<MemoryValue, MemoryFault>
    ensures { Gives (with_kind (reduction_kind r (kind_of_column x.now)) (λ k. total_result (reduced r (kind_of_column x.now) x.now.cells))) result }
{
    match reduction_class(r, x.class()) {
        Ok(_) if x.len() < MOST_ROWS => total_answer(alloc, summarise(alloc, r, x).finish()),
        Ok(_) => Err(MemoryFault::Memory),
        Err(fault) => refused_class(fault),
    }
}

/// The column of one row with this cell.
fn row_of(alloc: Global, c: &Cell<'_>) -> Result<Column, AllocError>
    ensures { IfOk result (λ x. x ≡ record { class = class_of_cell (seen c.now); cells = seen c.now ∷ [] }) }
{
    let mut row = Column::new(alloc, c.class());
    row.push(c)?;
    Ok(row)
}

/// A scalar is one row.
fn scalar_reduced(alloc: Global, r: Reduction, c: &Cell<'_>) -> Result<MemoryValue, MemoryFault>
    ensures { Gives (with_kind (reduction_kind r (seen_kind (seen c.now))) (λ k. total_result (reduced r (seen_kind (seen c.now)) (seen c.now ∷ [])))) result }
{
    let row = row_of(alloc, c)?;
    column_reduced(alloc, r, &row)
}

/// A reduction of a scalar, which is one row, or of a column. BadClass where the function does not take the class, and for a
/// table or texts; Data with no row where a sum of doubles is above 2^53 in magnitude, and where a minimum or maximum meets
/// no number (MathWorks, sum, min, max, any, all, nnz, numel).
pub fn memory_reduce(
    alloc: Global,
    r: Reduction,
    v: &MemoryRef<'_>,
) -> Result<MemoryValue, MemoryFault>
    ensures { Gives (memory_reduce r (ref_seen v.now)) result }
{
    match v {
        MemoryRef::Scalar(c) => scalar_reduced(alloc, r, c),
        MemoryRef::Column(x) => column_reduced(alloc, r, x),
        MemoryRef::Table(_) => Err(MemoryFault::BadClass),
        MemoryRef::Texts(_) => Err(MemoryFault::BadClass),
    }
}
