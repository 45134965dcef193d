//! How many data of a group pass a test.
ghost use Rattle.std.specs.Prelude.{◌≡◌, ◌<◌, ◌^◌, ℤ, ℕ, Bool, Option, if◌then◌else◌, option_map, refl, pos};
ghost use Rattle.tall_value.specs.declared.class.Kind.TheVariants.{Double};
ghost use Rattle.tall_value.specs.Cells.{Seen, seen, seen_kind};
ghost use Rattle.tall_group.specs.States.{IsTallyOf, double_or_none, is_missing, is_number_but_zero, never, tally_given};

use crate::states::GroupState;
use crate::totals::double_cell;
use std::marker::{Model, PhantomData};
use tall_value::{Cell, Kind};

/// A test of data.
pub(crate) trait Test: Copy {
    ghost test: { Option ℤ → Bool };

    /// The datum passes.
    fn passes(datum: Option<i128>) -> bool
        ensures { result ≡ test datum };
}

/// No datum passes.
#[derive(Clone, Copy)]
pub(crate) struct Never;

impl Test for Never {
    ghost test = { never };

    fn passes(_datum: Option<i128>) -> bool {
        false
    }
}

/// NaN passes.
#[derive(Clone, Copy)]
pub(crate) struct Missing;

impl Test for Missing {
    ghost test = { is_missing };

    fn passes(datum: Option<i128>) -> bool {
        datum.is_none()
    }
}

/// A number other than 0 passes.
#[derive(Clone, Copy)]
pub(crate) struct NumberButZero;

impl Test for NumberButZero {
    ghost test = { is_number_but_zero };

    fn passes(datum: Option<i128>) -> bool {
        match datum {
            Some(n) => n != 0,
            None => false,
        }
    }
}

/// How many data pass a test.
#[derive(Clone, Copy)]
pub(crate) struct Tally<T: Test> {
    count: u64,
    rows: u64,
    test: PhantomData<T>,
}

impl<T: Test> Model for Tally<T> {
    ghost use Rattle.std.specs.Prelude.{ℕ, ◌≤◌};

    ghost Value = { ℕ × ℕ };

    ghost view = { λ s. (s.count, s.rows) };

    ghost invariant = { λ s. s.count ≤ s.rows };

    ghost inverse = { λ d. record { count = d.0; rows = d.1; test = record {} } };
}

/// 1 where the datum passes.
fn one_if<T: Test>(datum: Option<i128>) -> u64
    ensures value { result ≡ (if T.test datum then 1 else 0) }
    ensures small { result < 2 }
{
    if T::passes(datum) { 1 } else { 0 }
}

impl<T: Test> GroupState for Tally<T> {
    ghost rows = { λ s. s.1 };

    ghost of = { λ low high ds s. IsTallyOf T.test ds s };

    ghost nothing = { (0, 0) };

    ghost gives = { tally_given T.test };

    ghost kind_given = { λ a. Double };

    fn none() -> Tally<T> {
        Tally {
            count: 0,
            rows: 0,
            test: PhantomData,
        }
    }

    fn step(self, _low: i128, _high: i128, datum: Option<i128>) -> Tally<T> {
        Tally {
            count: self.count + one_if::<T>(datum),
            rows: self.rows + 1,
            test: PhantomData,
        }
    }

    fn join(self, later: Tally<T>) -> Tally<T> {
        Tally {
            count: self.count + later.count,
            rows: self.rows + later.rows,
            test: PhantomData,
        }
    }

    fn count(self) -> u64 {
        self.rows
    }

    fn value<'a>(self, _kind: Kind) -> Option<Cell<'a>> {
        double_cell(self.count as i128)
    }

    fn value_kind(_kind: Kind) -> Kind {
        Kind::Double
    }

    ghost of_nothing = { λ low high r. (refl, refl) };

    ghost rows_of = { λ low high ds s h. h.1 };
}
