//! The least and the greatest number of a group.
ghost use Rattle.std.specs.Prelude.{◌≡◌, ℤ, None, option_map, refl};
ghost use Rattle.tall_clamp.specs.Folds.{of_both};
ghost use Rattle.tall_value.specs.Cells.{Seen, seen, seen_kind};
ghost use Rattle.tall_group.specs.States.{IsBestOf, IsWithin, best_cell, best_given, high_of, low_of};
ghost use Rattle.tall_group.specs.StateLaws.{PicksWithin, max_within, min_within};

use crate::numbers::{Number, key_cell};
use crate::states::GroupState;
use std::marker::{Model, PhantomData};
use tall_clamp::{Choice, Larger, Smaller};
use tall_value::{Cell, Kind};

/// A choice of one of two numbers: it lies between any ends between which both lie.
pub(crate) trait Extreme: Choice {
    ghost within: { PicksWithin Self.pick };
}

impl Extreme for Smaller {
    ghost within = { min_within };
}

impl Extreme for Larger {
    ghost within = { max_within };
}

/// The number that is kept among all; NaN is passed over.
#[derive(Clone, Copy)]
pub(crate) struct Best<C: Extreme> {
    number: Option<i128>,
    rows: u64,
    choice: PhantomData<C>,
}

impl<C: Extreme> Model for Best<C> {
    ghost use Rattle.std.specs.Prelude.{ℕ, ℤ, Option};

    ghost Value = { Option ℤ × ℕ };

    ghost view = { λ s. (s.number, s.rows) };

    ghost inverse = { λ d. record { number = d.0; rows = d.1; choice = record {} } };
}

/// The number that is kept of two, where one is there.
fn of_both<C: Extreme>(a: Option<i128>, b: Option<i128>) -> Option<i128>
    ensures { result ≡ of_both C.pick a b }
{
    match (a, b) {
        (Some(x), Some(y)) => Some(C::of_two(x, y)),
        (Some(x), None) => Some(x),
        (None, y) => y,
    }
}

#[tactic(auto, using(crate::proofs::NumberLemmas::best_is, crate::proofs::NumberLemmas::key_kind))]
/// The cell of a kind with the number, or NaN.
fn best_cell<'a>(kind: Kind, number: Option<i128>) -> Cell<'a>
    ensures cell { IsWithin (low_of kind) (high_of kind) number → seen result ≡ best_cell kind number }
    ensures kind { seen_kind (seen result) ≡ kind }
{
    match number {
        Some(n) => key_cell(kind, Number::Whole(n)),
        None => key_cell(kind, Number::Nan),
    }
}

impl<C: Extreme> GroupState for Best<C> {
    ghost rows = { λ s. s.1 };

    ghost of = { λ low high ds s. IsBestOf C.pick low high ds s };

    ghost nothing = { (None, 0) };

    ghost gives = { best_given C.pick };

    ghost kind_given = { λ a. a };

    fn none() -> Best<C> {
        Best {
            number: None,
            rows: 0,
            choice: PhantomData,
        }
    }

    fn step(self, _low: i128, _high: i128, datum: Option<i128>) -> Best<C> {
        Best {
            number: of_both::<C>(self.number, datum),
            rows: self.rows + 1,
            choice: PhantomData,
        }
    }

    fn join(self, later: Best<C>) -> Best<C> {
        Best {
            number: of_both::<C>(self.number, later.number),
            rows: self.rows + later.rows,
            choice: PhantomData,
        }
    }

    fn count(self) -> u64 {
        self.rows
    }

    fn value<'a>(self, kind: Kind) -> Option<Cell<'a>> {
        Some(best_cell(kind, self.number))
    }

    fn value_kind(kind: Kind) -> Kind {
        kind
    }

    ghost of_nothing = { λ low high r. (refl, refl, tt) };

    ghost rows_of = { λ low high ds s h. h.1 };
}
