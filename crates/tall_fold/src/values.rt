//! What is kept of a column for a reduction: a loop over its values in the type that they are kept in, one function for
//! all integer classes.
ghost use Rattle.std.specs.Prelude.{◌≡◌, ◌<◌, ◌≤◌, ◌^◌, IsOk, Some, length, map, pos};
ghost use Rattle.std.specs.List.{filter};
ghost use Rattle.tall_value.specs.declared.class.Kind.TheVariants.{Double as double_kind, Integer as integer_kind, Logical as logical_kind, Text as text_kind};
ghost use Rattle.tall_value.specs.Cells.{double, logical, text, whole};
ghost use Rattle.tall_value.specs.Classes.{kind_of};
ghost use Rattle.tall_value.specs.FunctionClasses.{reduction_class, reduction_kind};
ghost use Rattle.tall_value.specs.Reductions.{is_nonzero};
ghost use Rattle.tall_dense.specs.Dense.{shown};
ghost use Rattle.tall_fold.specs.Summaries.{IsKeptOf};

use crate::kept::Kept;
use crate::slices::{extreme, extreme_of_doubles, nonzeros, total_of_numbers};
use tall_clamp::{ClampSum, ExactSum, Fold, Term, fold_rows};
use tall_dense::{Integer, Texts, Values};
use tall_int::Whole;
use tall_value::Reduction;

/// Of values of an integer class.
pub(crate) fn of_integers<I: Integer>(op: Reduction, rows: &[I]) -> Kept
    requires takes { IsOk (reduction_kind op (integer_kind I.KIND)) }
    requires few { length rows.now < 2 ^ 40 }
    ensures { IsKeptOf op (integer_kind I.KIND) (map (λ x. whole I.KIND (I.number x)) rows.now) result }
{
    match op {
        Reduction::Sum { native: true, .. } => Kept::Clamp(ClampSum::of_slice(rows).untyped()),
        Reduction::Sum { native: false, .. } => Kept::Total(ExactSum::of_ints(rows)),
        Reduction::Min => Kept::Least(extreme(rows)),
        Reduction::Max => Kept::Greatest(extreme(rows)),
        Reduction::Nnz => Kept::Number(nonzeros(rows)),
        Reduction::Numel => Kept::Number(rows.len() as u64),
        Reduction::Height => Kept::Number(rows.len() as u64),
        Reduction::Any | Reduction::All => unreachable!(),
    }
}

/// The exact total of logicals: how many are true.
fn total_of_logicals(rows: &[bool]) -> ExactSum
    ensures total { result.0 ≡ Some (pos (length (filter is_nonzero (map (λ b. logical b) rows.now)))) }
    ensures rows { result.1 ≤ length rows.now }
{
    if rows.is_empty() {
        ExactSum::unit()
    } else {
        ExactSum::unit().step(Term::of_int(nonzeros(rows)))
    }
}

/// Of logicals.
pub(crate) fn of_logicals(op: Reduction, rows: &[bool]) -> Kept
    requires takes { IsOk (reduction_kind op logical_kind) }
    requires few { length rows.now < 2 ^ 40 }
    ensures { IsKeptOf op logical_kind (map (λ b. logical b) rows.now) result }
{
    match op {
        Reduction::Sum { native: false, .. } => Kept::Total(total_of_logicals(rows)),
        Reduction::Any => Kept::Any(fold_rows(rows)),
        Reduction::All => Kept::All(fold_rows(rows)),
        Reduction::Nnz => Kept::Number(nonzeros(rows)),
        Reduction::Numel => Kept::Number(rows.len() as u64),
        Reduction::Height => Kept::Number(rows.len() as u64),
        Reduction::Sum { native: true, .. } | Reduction::Min | Reduction::Max => unreachable!(),
    }
}

/// Of doubles.
pub(crate) fn of_doubles(op: Reduction, rows: &[Whole]) -> Kept
    requires takes { IsOk (reduction_kind op double_kind) }
    requires few { length rows.now < 2 ^ 40 }
    ensures { IsKeptOf op double_kind (map (λ d. double d) rows.now) result }
{
    match op {
        Reduction::Sum { omitnan: true, .. } => Kept::Total(total_of_numbers(rows)),
        Reduction::Sum { omitnan: false, .. } => Kept::Total(ExactSum::of_wholes(rows)),
        Reduction::Min => Kept::Least(extreme_of_doubles(rows)),
        Reduction::Max => Kept::Greatest(extreme_of_doubles(rows)),
        Reduction::Nnz => Kept::Number(nonzeros(rows)),
        Reduction::Numel => Kept::Number(rows.len() as u64),
        Reduction::Height => Kept::Number(rows.len() as u64),
        Reduction::Any | Reduction::All => unreachable!(),
    }
}

/// Of texts, which are only counted.
fn of_texts(op: Reduction, texts: &Texts) -> Kept
    requires takes { IsOk (reduction_kind op text_kind) }
    requires few { length texts.now < 2 ^ 40 }
    ensures { IsKeptOf op text_kind (map (λ t. text t) texts.now) result }
{
    match op {
        Reduction::Numel => Kept::Number(texts.len() as u64),
        Reduction::Height => Kept::Number(texts.len() as u64),
        _ => unreachable!(),
    }
}

/// Of a column's values.
pub(crate) fn kept_of(op: Reduction, values: &Values) -> Kept
    requires takes { IsOk (reduction_class op (shown values.now).class) }
    requires few { length (shown values.now).cells < 2 ^ 40 }
    ensures { IsKeptOf op (kind_of (shown values.now).class) (shown values.now).cells result }
{
    match values {
        Values::I8(v) => of_integers(op, v.as_slice()),
        Values::I16(v) => of_integers(op, v.as_slice()),
        Values::I32(v) => of_integers(op, v.as_slice()),
        Values::I64(v) => of_integers(op, v.as_slice()),
        Values::U8(v) => of_integers(op, v.as_slice()),
        Values::U16(v) => of_integers(op, v.as_slice()),
        Values::U32(v) => of_integers(op, v.as_slice()),
        Values::U64(v) => of_integers(op, v.as_slice()),
        Values::Logical(v) => of_logicals(op, v.as_slice()),
        Values::Double(v) => of_doubles(op, v.as_slice()),
        Values::Text(t) => of_texts(op, t),
    }
}
