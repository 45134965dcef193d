//! Terms of sums and of least and greatest values, from cells of each class.
ghost use Rattle.std.specs.Prelude.{◌≡◌, pos, if◌then◌else◌};
ghost use Rattle.tall_clamp.specs.Folds.{IsTerm};

use std::marker::Model;
use tall_int::{IntClass, Whole};

/// NaN, or a whole number of magnitude at most 2^64. Contracts see it as an option, none for NaN.
#[derive(Clone, Copy, Debug, PartialEq, Eq)]
pub struct Term {
    number: Option<i128>,
}

impl Model for Term {
    ghost use Rattle.std.specs.Prelude.{Option, ℤ};
    ghost use Rattle.tall_clamp.specs.Folds.{IsTerm};

    ghost Value = { Option ℤ };

    ghost view = { λ t. t.number };

    ghost invariant = { λ t. IsTerm t.number };

    ghost inverse = { λ n. record { number = n } };
}

impl Term {
    /// The number of an integer.
    pub fn of_int<I: IntClass>(v: I) -> Term
        ensures { result ≡ Some (I.number v) }
    {
        Term {
            number: Some(v.wide()),
        }
    }

    /// The number of a double, or NaN.
    pub fn of_whole(v: Whole) -> Term
        ensures { result ≡ v }
    {
        match v.get() {
            Some(n) => Term {
                number: Some(n as i128),
            },
            None => Term { number: None },
        }
    }

    /// 1 for true and 0 for false.
    pub fn of_bool(v: bool) -> Term
        ensures { result ≡ Some (if v then pos 1 else pos 0) }
    {
        Term {
            number: Some(if v { 1 } else { 0 }),
        }
    }

    /// The number; none for NaN.
    pub fn get(self) -> Option<i128>
        ensures number { result ≡ self }
        ensures term { IsTerm self }
    {
        self.number
    }
}
