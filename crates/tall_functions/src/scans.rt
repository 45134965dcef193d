//! Scans of columns in memory (docs/LANGUAGE.md, functions: cumsum, cummin, cummax).
ghost use Rattle.std.specs.Prelude.{◌≡◌, ◌<◌, ◌^◌, [], IfOk, IsOk, Ok, length};
ghost use Rattle.std.specs.List.{All};
ghost use Rattle.tall_value.specs.Classes.{kind_of};
ghost use Rattle.tall_value.specs.Columns.{HasKind, numbered};
ghost use Rattle.tall_value.specs.FunctionClasses.{scan_class, scan_kind};
ghost use Rattle.tall_value.specs.Scans.{scanned};
ghost use Rattle.tall_dense.specs.Rows.{Answers};
ghost use Rattle.tall_fold.specs.Carries.{IsCarry, result_kind, scan_rows};
ghost use Rattle.tall_local.specs.Memory.{kind_of_column};
ghost use Rattle.tall_local.specs.MemoryFunctions.{memory_scan};
ghost use Rattle.tall_local.specs.MemoryOperators.{column_result, with_kind};
ghost use Rattle.tall_memory.specs.Values.{Gives, ref_seen};

use crate::reductions::MOST_ROWS;
use std::alloc::Global;
use tall_column::Column;
use tall_dense::{OpFault, Values};
use tall_fold::{Carry, carry, scan};
use tall_memory::{MemoryFault, MemoryRef, MemoryValue, column_answer, refused_class};
use tall_value::{Scan, scan_class};

/// The values of a column, of which each cell has the kind of the class.
fn values_of(x: &Column) -> &Values
    ensures { All (HasKind (kind_of x.now.class)) x.now.cells }
{
    x.values()
}

/// What goes before the first row.
fn nothing_before(alloc: Global, s: Scan, x: &Column) -> Carry
    requires { IsOk (scan_class s x.now.class) }
    ensures operation { result.operation ≡ s }
    ensures class { scan_class s x.now.class ≡ Ok result.class }
    ensures rows { result.rows ≡ 0 }
    ensures carry { IsCarry s result.class [] result }
{
    let none = Column::new(alloc, x.class());
    carry(s, &none)
}

/// The scan of a whole column, whose rows are numbered from 0.
fn whole_scan(alloc: Global, s: Scan, x: &Column) -> Result<Column, OpFault>
    requires takes { IsOk (scan_class s x.now.class) }
    requires few { length x.now.cells < 2 ^ 40 }
    ensures rows { Answers (scan_rows s (result_kind (kind_of x.now.class)) [] (numbered 0 x.now.cells)) (λ c. c.cells) result }
    ensures class { IfOk result (λ c. scan_class s x.now.class ≡ Ok c.class) }
    ensures kinds { All (HasKind (kind_of x.now.class)) x.now.cells }
{
    let _values = values_of(x);
    scan(alloc, s, x, nothing_before(alloc, s, x))
}

fn column_scanned(alloc: Global, s: Scan, x: &Column) -> Result<MemoryValue, MemoryFault>
    ensures { Gives (with_kind (scan_kind s (kind_of_column x.now)) (λ k. column_result k (scanned s (kind_of_column x.now) (numbered 1 x.now.cells)))) result }
{
    let rows = x.len();
    match scan_class(s, x.class()) {
        Ok(_) if rows < MOST_ROWS => column_answer(rows, whole_scan(alloc, s, x)),
        Ok(_) => Err(MemoryFault::Memory),
        Err(fault) => refused_class(fault),
    }
}

/// Each row of a column with the fold of the rows up to it. BadArgument for a scalar; BadClass where the function does not
/// take the class, and for a table or texts; Data with the first row, counted from 1, whose sum of doubles is above 2^53 in
/// magnitude (MathWorks, cumsum, cummin, cummax).
pub fn memory_scan(alloc: Global, s: Scan, v: &MemoryRef<'_>) -> Result<MemoryValue, MemoryFault>
    ensures { Gives (memory_scan s (ref_seen v.now)) result }
{
    match v {
        MemoryRef::Scalar(_) => Err(MemoryFault::BadArgument),
        MemoryRef::Column(x) => column_scanned(alloc, s, x),
        MemoryRef::Table(_) => Err(MemoryFault::BadClass),
        MemoryRef::Texts(_) => Err(MemoryFault::BadClass),
    }
}
