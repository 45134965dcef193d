//! Scans of blocks of a column.
ghost use Rattle.std.specs.Prelude.{◌≡◌, ◌+◌, ◌<◌, ◌^◌, IfOk, IsOk, List, Ok, length, map};
ghost use Rattle.tall_value.specs.declared.class.Class.TheVariants as class;
ghost use Rattle.tall_value.specs.declared.functions.Scan.{Scan};
ghost use Rattle.tall_value.specs.declared.functions.Scan.TheVariants.{CumSum};
ghost use Rattle.tall_value.specs.declared.class.Kind.TheVariants.{Double as double_kind, Integer as integer_kind};
ghost use Rattle.tall_value.specs.Cells.{Seen, double, whole};
ghost use Rattle.tall_value.specs.Classes.{class_of, kind_of};
ghost use Rattle.tall_value.specs.Columns.{numbered};
ghost use Rattle.tall_value.specs.FunctionClasses.{scan_class};
ghost use Rattle.tall_dense.specs.Dense.{shown};
ghost use Rattle.tall_dense.specs.Rows.{Answers};
ghost use Rattle.tall_fold.specs.Carries.{IsCarry, IsFoldOf, IsMemory, IsScanFrom, next_best, result_kind, running, scan_cell, scan_fold, scan_rows};
ghost use Rattle.tall_fold.specs.Forms.{exact_total, form_of};
ghost use Rattle.tall_fold.specs.Summaries.{kept_form, kept_rows};
ghost use Rattle.tall_fold.specs.declared.kept.Kept.TheVariants.{Total};

use crate::carried::{double_fold, integer_fold};
use crate::carries::Carry;
use crate::kept::Kept;
use crate::pick::Pick;
use crate::running::{Adding, Keeping, KeepingDouble, Summed, running, running_totals};
use std::alloc::{AllocError, Global};
use std::marker::PhantomData;
use tall_clamp::{ExactSum, Larger, Smaller};
use tall_column::Column;
use tall_dense::{Integer, OpFault, Values};
use tall_int::{Whole, clamp};
use tall_value::Scan;

/// The carry of a column's rows, by a loop over its values; docs/LANGUAGE.md, functions. It asks for a class that the scan
/// takes and for fewer than 2^40 rows. Its class is that of the scan's result.
pub fn carry(operation: Scan, column: &Column) -> Carry
    requires takes { IsOk (scan_class operation column.now.class) }
    requires few { length column.now.cells < 2 ^ 40 }
    ensures class { scan_class operation column.now.class ≡ Ok result.class }
    ensures carry { IsCarry operation result.class column.now.cells result }
{
    Carry::of_column(operation, column)
}

/// Each row of an integer class with the fold up to it, from a start on.
fn integers_from<I: Integer>(
    alloc: Global,
    operation: Scan,
    start: I,
    rows: &[I],
) -> Result<Vec<I>, AllocError>
    ensures { IfOk result (λ v. (cs : List Seen) → scan_cell operation (integer_kind I.KIND) cs ≡ Ok (whole I.KIND (I.number start)) → scan_rows operation (integer_kind I.KIND) cs (numbered 0 (map (λ x. whole I.KIND (I.number x)) rows.now)) ≡ Ok (numbered 0 (map (λ x. whole I.KIND (I.number x)) v.items))) }
{
    match operation {
        Scan::CumSum => running(alloc, Adding, start, rows),
        Scan::CumMin => {
            let least = Keeping::<Smaller> {
                choice: PhantomData,
            };
            running(alloc, least, start, rows)
        }
        Scan::CumMax => {
            let greatest = Keeping::<Larger> {
                choice: PhantomData,
            };
            running(alloc, greatest, start, rows)
        }
    }
}

/// The scan of a column of an integer class.
fn of_integers<I: Integer>(
    alloc: Global,
    operation: Scan,
    kept: Kept,
    rows: &[I],
) -> Result<Column, OpFault>
    ensures rows { IsScanFrom operation (integer_kind I.KIND) kept (map (λ x. whole I.KIND (I.number x)) rows.now) result }
    ensures class { IfOk result (λ c. c.class ≡ class_of (integer_kind I.KIND)) }
{
    let start: I = clamp(integer_fold(kept));
    let rows = integers_from(alloc, operation, start, rows)?;
    Ok(Column::of(alloc, rows))
}

/// The exact total that is kept.
fn total_of(kept: Kept) -> ExactSum
    requires { kept_form kept ≡ exact_total }
    ensures { kept ≡ Total result }
{
    match kept {
        Kept::Total(total) => total,
        _ => unreachable!(),
    }
}

/// The least or the greatest double so far, which is NaN over no number.
fn double_so_far(kept: Kept) -> Whole
    ensures { (op : Scan) (cs : List Seen) (c : Seen) → IsFoldOf op double_kind cs kept → scan_cell op double_kind cs ≡ Ok c → c ≡ double result }
{
    match double_fold(kept) {
        Some(double) => double,
        None => Whole::nan(),
    }
}

/// Each double with the least or the greatest one up to it.
fn doubles_from<C: Pick>(alloc: Global, start: Whole, rows: &[Whole]) -> Result<Column, OpFault>
    ensures running { IfOk result (λ c. c.cells ≡ running (next_best C.pick) (double start) (map (λ d. double d) rows.now)) }
    ensures memory { IsMemory result }
    ensures class { IfOk result (λ c. c.class ≡ class.Double) }
{
    let step = KeepingDouble::<C> {
        choice: PhantomData,
    };
    let rows = running(alloc, step, start, rows)?;
    Ok(Column::of(alloc, rows))
}

/// The exact totals of a column of doubles or logicals.
fn totals_from<T: Summed>(alloc: Global, kept: Kept, rows: &[T]) -> Result<Column, OpFault>
    requires form { kept_form kept ≡ exact_total }
    requires few { kept_rows kept + length rows.now < 2 ^ 40 }
    ensures rows { IsScanFrom CumSum double_kind kept (map T.shown rows.now) result }
    ensures class { IfOk result (λ c. c.class ≡ class.Double) }
{
    match running_totals(alloc, total_of(kept), rows) {
        Ok(rows) => Ok(Column::of(alloc, rows)),
        Err(fault) => Err(fault),
    }
}

/// The scan of a column of doubles.
fn of_doubles(alloc: Global, operation: Scan, kept: Kept, rows: &[Whole]) -> Result<Column, OpFault>
    requires form { kept_form kept ≡ form_of (scan_fold operation double_kind) double_kind }
    requires few { kept_rows kept + length rows.now < 2 ^ 40 }
    ensures rows { IsScanFrom operation double_kind kept (map (λ d. double d) rows.now) result }
    ensures class { IfOk result (λ c. c.class ≡ class.Double) }
{
    match operation {
        Scan::CumSum => totals_from(alloc, kept, rows),
        Scan::CumMin => doubles_from::<Smaller>(alloc, double_so_far(kept), rows),
        Scan::CumMax => doubles_from::<Larger>(alloc, double_so_far(kept), rows),
    }
}

/// The scan of a column's values.
fn of_values(alloc: Global, operation: Scan, kept: Kept, values: &Values) -> Result<Column, OpFault>
    requires takes { IsOk (scan_class operation (shown values.now).class) }
    requires form { kept_form kept ≡ form_of (scan_fold operation (result_kind (kind_of (shown values.now).class))) (result_kind (kind_of (shown values.now).class)) }
    requires few { kept_rows kept + length (shown values.now).cells < 2 ^ 40 }
    ensures rows { IsScanFrom operation (result_kind (kind_of (shown values.now).class)) kept (shown values.now).cells result }
    ensures class { IfOk result (λ c. c.class ≡ class_of (result_kind (kind_of (shown values.now).class))) }
{
    match values {
        Values::I8(v) => of_integers(alloc, operation, kept, v.as_slice()),
        Values::I16(v) => of_integers(alloc, operation, kept, v.as_slice()),
        Values::I32(v) => of_integers(alloc, operation, kept, v.as_slice()),
        Values::I64(v) => of_integers(alloc, operation, kept, v.as_slice()),
        Values::U8(v) => of_integers(alloc, operation, kept, v.as_slice()),
        Values::U16(v) => of_integers(alloc, operation, kept, v.as_slice()),
        Values::U32(v) => of_integers(alloc, operation, kept, v.as_slice()),
        Values::U64(v) => of_integers(alloc, operation, kept, v.as_slice()),
        Values::Logical(v) => match operation {
            Scan::CumSum => totals_from(alloc, kept, v.as_slice()),
            _ => unreachable!(),
        },
        Values::Double(v) => of_doubles(alloc, operation, kept, v.as_slice()),
        Values::Text(_) => unreachable!(),
    }
}

/// Each row of a column with the fold of the carry's rows and of the column's own up to it; docs/LANGUAGE.md, functions. The
/// carry is that of the rows before the column, of the same scan, and its class is that of the result; over all rows from
/// the first on it is `carry` of a column of no rows. It asks for fewer than 2^40 rows together.
///
/// # Errors
/// `At` with the first row of this column whose sum of doubles is above 2^53 in magnitude before any NaN, those of the
/// carry's rows included, whatever sums the carry's own rows had; and Memory for want of memory alone.
pub fn scan(
    alloc: Global,
    operation: Scan,
    column: &Column,
    carry: Carry,
) -> Result<Column, OpFault>
    requires operation { carry.operation ≡ operation }
    requires class { scan_class operation column.now.class ≡ Ok carry.class }
    requires few { carry.rows + length column.now.cells < 2 ^ 40 }
    ensures rows { (cs : List Seen) → IsCarry operation carry.class cs carry → Answers (scan_rows operation (kind_of carry.class) cs (numbered 0 column.now.cells)) (λ c. c.cells) result }
    ensures class { IfOk result (λ c. c.class ≡ carry.class) }
{
    of_values(alloc, operation, carry.kept(), column.values())
}
