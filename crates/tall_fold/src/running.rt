//! Folds that give each row the fold up to it.
ghost use Rattle.std.specs.Prelude.{◌≡◌, ◌+◌, ◌<◌, ◌^◌, ◌∷◌, [], IfOk, List, length, map};
ghost use Rattle.std.specs.List.{All};
ghost use Rattle.tall_value.specs.Cells.{Seen, amount, double};
ghost use Rattle.tall_value.specs.Columns.{numbered};
ghost use Rattle.tall_value.specs.declared.class.Kind.TheVariants.{Double as double_kind};
ghost use Rattle.tall_value.specs.declared.functions.Scan.TheVariants.{CumSum};
ghost use Rattle.tall_value.specs.CellOperators.{to_double};
ghost use Rattle.tall_value.specs.Results.{shown_result};
ghost use Rattle.tall_clamp.specs.Folds.{added};
ghost use Rattle.tall_dense.specs.Rows.{Answers};
ghost use Rattle.tall_fold.specs.Carries.{InClass, next_best, next_sum, running, scan_rows};
ghost use Rattle.tall_fold.specs.PickLaws.{double_alone, logical_alone};
ghost use Rattle.tall_fold.specs.Forms.{total_unless_nan};

use crate::pick::Pick;
use std::alloc::{AllocError, Global};
use std::marker::PhantomData;
use tall_clamp::{ExactSum, Fold, Term};
use tall_dense::{Integer, OpFault, Stored};
use tall_int::{Whole, sat_add};
use tall_value::CellFault;

/// How a row's value changes the fold so far, which is a value of the column's own type.
pub(crate) trait Step<T: Stored>: Copy {
    ghost next: { Seen → Seen → Seen };

    /// The fold of the rows so far and one more.
    fn next(self, so_far: T, value: T) -> T
        ensures next { T.shown result ≡ Self.next (T.shown so_far) (T.shown value) }
        ensures within { InClass (T.shown value) };
}

/// A sum that is kept in an integer class.
#[derive(Clone, Copy)]
pub(crate) struct Adding;

impl<I: Integer> Step<I> for Adding {
    ghost next = { next_sum };

    fn next(self, so_far: I, value: I) -> I {
        let _number = value.wide();
        sat_add(so_far, value)
    }
}

/// The least or the greatest number of an integer class.
#[derive(Clone, Copy)]
pub(crate) struct Keeping<C> {
    pub choice: PhantomData<C>,
}

impl<I: Integer, C: Pick> Step<I> for Keeping<C> {
    ghost next = { next_best C.pick };

    fn next(self, so_far: I, value: I) -> I {
        let _number = value.wide();
        C::of_values(so_far, value)
    }
}

/// The least or the greatest double; NaN is passed over.
#[derive(Clone, Copy)]
pub(crate) struct KeepingDouble<C> {
    pub choice: PhantomData<C>,
}

impl<C: Pick> Step<Whole> for KeepingDouble<C> {
    ghost next = { next_best C.pick };

    fn next(self, so_far: Whole, value: Whole) -> Whole {
        C::of_doubles(so_far, value)
    }
}

/// Each row with the fold up to it, from a start on.
pub(crate) fn running<T: Stored, S: Step<T>>(
    alloc: Global,
    step: S,
    start: T,
    rows: &[T],
) -> Result<Vec<T>, AllocError>
    ensures running { IfOk result (λ v. map T.shown v.items ≡ running S.next (T.shown start) (map T.shown rows.now)) }
    ensures within { IfOk result (λ v. All InClass (map T.shown rows.now)) }
{
    let mut out = Vec::with_capacity(alloc, rows.len())?;
    let mut so_far = start;
    for row in 0..rows.len() {
        so_far = step.next(so_far, rows[row]);
        out.push_reserved(so_far);
    }
    Ok(out)
}

/// A value that goes into an exact total.
pub(crate) trait Summed: Stored {
    /// The value as a term of a sum.
    fn term(self) -> Term
        ensures { result ≡ amount (Self.shown self) };

    // Its total alone is its number.
    ghost alone: { (x : Self) → total_unless_nan (Self.shown x ∷ []) ≡ amount (Self.shown x) };
}

impl Summed for bool {
    fn term(self) -> Term {
        Term::of_bool(self)
    }

    ghost alone = { logical_alone };
}

impl Summed for Whole {
    fn term(self) -> Term {
        Term::of_whole(self)
    }

    ghost alone = { double_alone };
}

/// The exact total with one value more.
fn with_value<T: Summed>(total: ExactSum, value: T) -> ExactSum
    requires { total.1 + 1 < 2 ^ 40 }
    ensures total { result.0 ≡ added total.0 (amount (T.shown value)) }
    ensures rows { result.1 ≡ total.1 + 1 }
{
    total.step(value.term())
}

/// The total as a double.
fn checked_total(total: ExactSum) -> Result<Whole, CellFault>
    ensures { shown_result (λ d. double d) result ≡ to_double total.0 }
{
    match total.finish() {
        Some(double) => Ok(double),
        None => Err(CellFault::Inexact),
    }
}

/// Each row with the exact total up to it, from a total on.
pub(crate) fn running_totals<T: Summed>(
    alloc: Global,
    start: ExactSum,
    rows: &[T],
) -> Result<Vec<Whole>, OpFault>
    requires { start.1 + length rows.now < 2 ^ 40 }
    ensures { (cs : List Seen) → start.0 ≡ total_unless_nan cs → Answers (scan_rows CumSum double_kind cs (numbered 0 (map T.shown rows.now))) (λ v. map (λ d. double d) v.items) result }
{
    let mut out = Vec::with_capacity(alloc, rows.len())?;
    let mut total = start;
    for row in 0..rows.len() {
        total = with_value(total, rows[row]);
        match checked_total(total) {
            Ok(double) => out.push_reserved(double),
            Err(fault) => return Err(OpFault::At { row, fault }),
        }
    }
    Ok(out)
}
