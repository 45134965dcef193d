//! The fold of a carry's rows.
ghost use Rattle.std.specs.Prelude.{◌≡◌, ◌∷◌, [], IfSome, IsOk, List, Ok};
ghost use Rattle.tall_int.specs.Numbers.{nearest};
ghost use Rattle.tall_value.specs.declared.class.IntKind.{IntKind};
ghost use Rattle.tall_value.specs.declared.class.Kind.TheVariants.{Double as double_kind, Integer as integer_kind};
ghost use Rattle.tall_value.specs.declared.functions.Scan.{Scan};
ghost use Rattle.tall_value.specs.Cells.{Seen, seen, seen_kind, whole};
ghost use Rattle.tall_value.specs.Classes.{greatest, least};
ghost use Rattle.tall_value.specs.FunctionClasses.{scan_kind};
ghost use Rattle.tall_fold.specs.Carries.{IsDouble, IsFoldOf, result_kind, scan_cell, scan_fold};
ghost use Rattle.tall_fold.specs.Summaries.{IsKeptOf, IsNumber};

use crate::kept::Kept;
use crate::values::{of_doubles, of_integers, of_logicals};
use tall_clamp::Fold;
use tall_int::Whole;
use tall_value::{Cell, Kind, Reduction, Scan};

/// The reduction that a carry keeps of its rows, by the kind of the column.
pub(crate) fn fold_of(operation: Scan, kind: Kind) -> Reduction
    ensures { result ≡ scan_fold operation kind }
{
    match operation {
        Scan::CumSum => match kind {
            Kind::Integer(_) => Reduction::Sum {
                native: true,
                omitnan: false,
            },
            _ => Reduction::Sum {
                native: false,
                omitnan: false,
            },
        },
        Scan::CumMin => Reduction::Min,
        Scan::CumMax => Reduction::Max,
    }
}

/// The kind of a scan's result: a sum of logicals is a double.
pub(crate) fn kind_of_result(kind: Kind) -> Kind
    ensures { result ≡ result_kind kind }
{
    match kind {
        Kind::Logical => Kind::Double,
        other => other,
    }
}

/// A number above each number of an integer class.
const FAR: i128 = 1 << 64;

/// The fold of rows of an integer class; the class's number that is nearest to it is the fold.
pub(crate) fn integer_fold(kept: Kept) -> i128
    ensures { (op : Scan) (k : IntKind) (cs : List Seen) → IsFoldOf op (integer_kind k) cs kept → scan_cell op (integer_kind k) cs ≡ Ok (whole k (nearest (least k) (greatest k) result)) }
{
    match kept {
        Kept::Clamp(sum) => sum.sum_from(0),
        Kept::Least(best) => best.finish().unwrap_or(FAR),
        Kept::Greatest(best) => best.finish().unwrap_or(-FAR),
        Kept::Total(_) => 0,
        Kept::Any(_) => 0,
        Kept::All(_) => 0,
        Kept::Number(_) => 0,
    }
}

/// The double of a number, and NaN where there is none.
fn double_or_nan(number: Option<i128>) -> Whole
    ensures { IfSome number (IsNumber double_kind) → result ≡ number }
{
    match number {
        Some(number) => Whole::of_number(number).unwrap_or(Whole::nan()),
        None => Whole::nan(),
    }
}

/// The fold of rows whose result is a double; none where a sum is above 2^53 in magnitude.
pub(crate) fn double_fold(kept: Kept) -> Option<Whole>
    ensures { (op : Scan) (cs : List Seen) → IsFoldOf op double_kind cs kept → IsDouble (scan_cell op double_kind cs) result }
{
    match kept {
        Kept::Total(total) => total.finish(),
        Kept::Least(best) => Some(double_or_nan(best.finish())),
        Kept::Greatest(best) => Some(double_or_nan(best.finish())),
        Kept::Clamp(_) => None,
        Kept::Any(_) => None,
        Kept::All(_) => None,
        Kept::Number(_) => None,
    }
}

/// What is kept of one row.
pub(crate) fn kept_of_cell(operation: Scan, cell: &Cell<'_>) -> Kept
    requires { IsOk (scan_kind operation (seen_kind (seen cell.now))) }
    ensures { IsKeptOf (scan_fold operation (seen_kind (seen cell.now))) (seen_kind (seen cell.now)) (seen cell.now ∷ []) result }
{
    let fold = fold_of(operation, cell.class().kind());
    match *cell {
        Cell::I8(n) => of_integers(fold, &[n]),
        Cell::I16(n) => of_integers(fold, &[n]),
        Cell::I32(n) => of_integers(fold, &[n]),
        Cell::I64(n) => of_integers(fold, &[n]),
        Cell::U8(n) => of_integers(fold, &[n]),
        Cell::U16(n) => of_integers(fold, &[n]),
        Cell::U32(n) => of_integers(fold, &[n]),
        Cell::U64(n) => of_integers(fold, &[n]),
        Cell::Logical(b) => of_logicals(fold, &[b]),
        Cell::Double(d) => of_doubles(fold, &[d]),
        Cell::Text(_) => unreachable!(),
    }
}
