//! Loops over the values of a column, in the types that they are kept in.
ghost use Rattle.std.specs.Prelude.{◌≡◌, ◌+◌, ◌<◌, ◌≤◌, ◌≤ℤ◌, ◌^◌, IfSome, None, Some, if◌then◌else◌, length, map, unsigned_abs};
ghost use Rattle.std.specs.List.{filter, filter_map, fold};
ghost use Rattle.tall_int.specs.Numbers.{nearest};
ghost use Rattle.tall_clamp.specs.Folds.{added, of_both};
ghost use Rattle.tall_clamp.specs.Outcomes.{picked};
ghost use Rattle.tall_value.specs.declared.class.Kind.TheVariants.{Double};
ghost use Rattle.tall_value.specs.Reductions.{is_nonzero, total};
ghost use Rattle.tall_fold.specs.Summaries.{IsNumber};

use crate::pick::Pick;
use tall_clamp::{Choice, ExactSum, Extreme, Fold, Term};
use tall_dense::Operand;
use tall_int::{IntClass, Whole};

/// The one of a first value and those behind it that is kept.
fn best<I: IntClass, C: Pick>(first: I, rest: &[I]) -> I
    ensures { I.number result ≡ fold C.pick (I.number first) (map I.number rest.now) }
{
    let mut best = first;
    for v in rest {
        best = C::of_values(best, *v);
    }
    best
}

/// The fold of one value of a class.
fn one<I: IntClass, C: Choice>(value: I) -> Extreme<C>
    ensures number { result.0 ≡ Some (I.number value) }
    ensures rows { result.1 ≡ 1 }
    ensures low { I.MIN ≤ℤ I.number value }
    ensures high { I.number value ≤ℤ I.MAX }
{
    let _number = value.wide();
    Extreme::unit().step(Term::of_int(value))
}

/// The least or the greatest number of a slice of an integer class.
pub(crate) fn extreme<I: IntClass, C: Pick>(rows: &[I]) -> Extreme<C>
    ensures number { result.0 ≡ picked C.pick (map I.number rows.now) }
    ensures rows { result.1 ≤ length rows.now }
    ensures within { IfSome result.0 (λ n. nearest I.MIN I.MAX n ≡ n) }
{
    match rows {
        [] => Extreme::unit(),
        [first, rest @ ..] => one(best::<I, C>(*first, rest)),
    }
}

/// The least or the greatest number so far, with one double more; NaN is passed over.
fn with_double<C: Choice>(best: Extreme<C>, value: Whole) -> Extreme<C>
    requires { best.1 + 1 < 2 ^ 40 }
    ensures number { result.0 ≡ of_both C.pick best.0 value }
    ensures rows { result.1 ≡ best.1 + 1 }
    ensures small { IfSome value (λ n. unsigned_abs n ≤ 2 ^ 53) }
{
    let _number = value.get();
    best.step(Term::of_whole(value))
}

/// The least or the greatest number of doubles; NaN is passed over.
pub(crate) fn extreme_of_doubles<C: Pick>(rows: &[Whole]) -> Extreme<C>
    requires { length rows.now < 2 ^ 40 }
    ensures number { result.0 ≡ picked C.pick (filter_map (λ d. d) rows.now) }
    ensures rows { result.1 ≤ length rows.now }
    ensures within { IfSome result.0 (IsNumber Double) }
{
    let mut best = Extreme::unit();
    for v in rows {
        best = with_double(best, *v);
    }
    best
}

/// The exact total so far, with one double more, where that is a number.
fn with_number(total: ExactSum, value: Whole) -> ExactSum
    requires { total.1 + 1 < 2 ^ 40 }
    ensures total { result.0 ≡ elim value [ Some n ↦ added total.0 (Some n) | None ↦ total.0 ] }
    ensures rows { result.1 ≤ total.1 + 1 }
{
    match value.get() {
        Some(_) => total.step(Term::of_whole(value)),
        None => total,
    }
}

/// The exact total of the doubles that aren't NaN.
pub(crate) fn total_of_numbers(rows: &[Whole]) -> ExactSum
    requires { length rows.now < 2 ^ 40 }
    ensures total { result.0 ≡ Some (total (filter_map (λ d. d) rows.now)) }
    ensures rows { result.1 ≤ length rows.now }
{
    let mut total = ExactSum::unit();
    for v in rows {
        total = with_number(total, *v);
    }
    total
}

/// One for a value that isn't 0. A NaN isn't 0.
fn one_if_nonzero<T: Operand>(value: T) -> u64
    ensures value { result ≡ (if is_nonzero (T.shown value) then 1 else 0) }
    ensures few { result ≤ 1 }
{
    match value.truth() {
        Ok(false) => 0,
        _ => 1,
    }
}

/// How many values aren't 0.
pub(crate) fn nonzeros<T: Operand>(rows: &[T]) -> u64
    ensures value { result ≡ length (filter is_nonzero (map T.shown rows.now)) }
    ensures few { result ≤ length rows.now }
{
    let mut count = 0;
    for v in rows {
        count += one_if_nonzero(*v);
    }
    count
}
