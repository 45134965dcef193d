//! Scans over a block's rows.
ghost use Rattle.std.specs.Prelude.{◌≡◌, ◌≤◌, ◌∷◌, [], IfOk, Ok, length, map};
ghost use Rattle.tall_value.specs.declared.class.Kind.TheVariants.{Integer as integer_kind};
ghost use Rattle.tall_value.specs.Cells.{seen, whole};
ghost use Rattle.tall_value.specs.Classes.{kind_of};
ghost use Rattle.tall_value.specs.FunctionClasses.{scan_class};
ghost use Rattle.tall_dense.specs.Columns.{class_of_cell};
ghost use Rattle.tall_dense.specs.Dense.{shown};
ghost use Rattle.tall_semantics.specs.Faults.{At};
ghost use Rattle.tall_semantics.specs.Outcomes.{Outcome, row_by_row, rows_in};
ghost use Rattle.tall_blocks.specs.Carries.{AllCells, IsInClass, scanned_behind};
ghost use Rattle.tall_block.specs.ScanCells.{IsScanned};
ghost use Rattle.tall_block.specs.Shown.{Shows, Tells};

use std::alloc::Global;
use tall_column::{Column, OpFault, Values};
use tall_dense::Integer;
use tall_fold::{Carry, scan};
use tall_value::{Cell, Scan};

/// More rows than this, with the one that the carry stands for, no scan goes over.
const MOST_ROWS: usize = 1 << 40;

/// The numbers of an integer class are within it. Nothing is done with them.
fn integers_are_within<I: Integer>(rows: &[I])
    ensures { AllCells (IsInClass (integer_kind I.KIND)) (map (λ x. whole I.KIND (I.number x)) rows.now) }
{
    for row in 0..rows.len() {
        let _number = rows[row].wide();
    }
}

/// The cells of a column are those of its class. Nothing is done with them.
fn cells_are_of_class(values: &Values)
    ensures { AllCells (IsScanned (kind_of (shown values.now).class)) (shown values.now).cells }
{
    match values {
        Values::I8(v) => integers_are_within(v.as_slice()),
        Values::I16(v) => integers_are_within(v.as_slice()),
        Values::I32(v) => integers_are_within(v.as_slice()),
        Values::I64(v) => integers_are_within(v.as_slice()),
        Values::U8(v) => integers_are_within(v.as_slice()),
        Values::U16(v) => integers_are_within(v.as_slice()),
        Values::U32(v) => integers_are_within(v.as_slice()),
        Values::U64(v) => integers_are_within(v.as_slice()),
        Values::Logical(_) => {}
        Values::Double(_) => {}
        Values::Text(_) => {}
    }
}

/// Each row of a column with the fold of a carry and of the column's own rows up to it. The carry has the class of the scan's
/// result.
///
/// # Errors
/// `At` with the first row, counted from 0, whose sum is above 2^53 in magnitude; `Memory` for want of memory alone, as which
/// 2^40 rows and more count.
pub(crate) fn scan_over(
    alloc: Global,
    s: Scan,
    x: &Column,
    cell: &Cell<'_>,
) -> Result<Column, OpFault>
    requires { scan_class s x.now.class ≡ Ok (class_of_cell (seen cell.now)) }
    ensures class { IfOk result (λ c. c.class ≡ class_of_cell (seen cell.now)) }
    ensures height { IfOk result (λ c. length c.cells ≤ length x.now.cells) }
    ensures within { AllCells (IsInClass (kind_of x.now.class)) x.now.cells }
    ensures rows { (at : At) (y : Outcome) → Shows y x.now.cells → Tells at (rows_in y) (row_by_row at (scanned_behind s (kind_of x.now.class) (seen cell.now ∷ []) (rows_in y))) result }
{
    cells_are_of_class(x.values());
    if x.len() >= MOST_ROWS - 1 {
        return Err(OpFault::Memory);
    }
    scan(alloc, s, x, Carry::of(s, cell))
}
