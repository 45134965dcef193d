//! The result of a reduction, from what the cells come to.
ghost use Rattle.std.specs.Prelude.{◌≡◌, ◌<◌, ◌^◌, IfSome, IsOk, List, Some, option_map, pos};
ghost use Rattle.tall_value.specs.declared.functions.Reduction.{Reduction};
ghost use Rattle.tall_value.specs.Cells.{Seen, seen};
ghost use Rattle.tall_value.specs.CellOperators.{to_double};
ghost use Rattle.tall_value.specs.FunctionClasses.{reduction_kind};
ghost use Rattle.tall_value.specs.Reductions.{or_fault, or_no_rows, reduced};
ghost use Rattle.tall_fold.specs.Summaries.{HasNumber, IsFound, IsKeptOf, IsNumber, kept_rows, number_cell};

use crate::kept::Kept;
use tall_clamp::{ExactSum, FinishFault, Fold};
use tall_int::Whole;
use tall_value::{Cell, Kind};

/// The double of a number of rows.
fn double_of_count(count: u64) -> Whole
    requires { count < 2 ^ 40 }
    ensures { result ≡ Some (pos count) }
{
    match Whole::new(count as i64) {
        Some(double) => double,
        None => unreachable!(),
    }
}

/// The cell of a number of a class; of one that is not, the nearest of an integer class, and else NaN.
pub(crate) fn cell_of<'a>(kind: Kind, number: i128) -> Cell<'a>
    ensures { IsNumber kind number → seen result ≡ number_cell kind number }
{
    match kind {
        Kind::Integer(class) => Cell::of_class(class, number),
        _ => Cell::Double(Whole::of_number(number).unwrap_or(Whole::nan())),
    }
}

/// The double of an exact total, which has to be one.
fn double_of_total<'a>(total: ExactSum) -> Result<Cell<'a>, FinishFault>
    ensures { IsFound (or_fault (to_double total.0)) result }
{
    match total.finish() {
        Some(double) => Ok(Cell::Double(double)),
        None => Err(FinishFault::Inexact),
    }
}

/// The cell of a number, which has to be there.
fn cell_of_best<'a>(kind: Kind, best: Option<i128>) -> Result<Cell<'a>, FinishFault>
    requires { IfSome best (IsNumber kind) }
    ensures { IsFound (or_no_rows (option_map (number_cell kind) best)) result }
{
    match best {
        Some(number) => Ok(cell_of(kind, number)),
        None => Err(FinishFault::NoRows),
    }
}

/// The result of a reduction, or its fault.
pub(crate) fn found<'a>(kind: Kind, kept: Kept) -> Result<Cell<'a>, FinishFault>
    requires number { HasNumber kind kept }
    requires few { kept_rows kept < 2 ^ 40 }
    ensures { (op : Reduction) (cs : List Seen) → IsOk (reduction_kind op kind) → IsKeptOf op kind cs kept → IsFound (reduced op kind cs) result }
{
    match kept {
        Kept::Total(total) => double_of_total(total),
        Kept::Clamp(sum) => Ok(cell_of(kind, sum.sum_from(0))),
        Kept::Least(best) => cell_of_best(kind, best.finish()),
        Kept::Greatest(best) => cell_of_best(kind, best.finish()),
        Kept::Any(truth) => Ok(Cell::Logical(truth.finish())),
        Kept::All(truth) => Ok(Cell::Logical(truth.finish())),
        Kept::Number(number) => Ok(Cell::Double(double_of_count(number))),
    }
}
