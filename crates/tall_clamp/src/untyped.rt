//! Saturating sums of an integer class that is not part of the type.
ghost use Rattle.std.specs.Prelude.{◌≡◌, ◌+◌, ◌<◌, ◌^◌, ◌≤ℤ◌, negsuc, pos};
ghost use Rattle.tall_clamp.specs.Clamps.{after, apply};
ghost use Rattle.tall_clamp.specs.Folds.{joined_by, IsSum};

use crate::bounds::{Bounds, between};
use crate::join::one_after;
use std::marker::Model;

/// What a `ClampSum` holds, where the class is known beside it: so sums of all classes are joined in one place.
#[derive(Clone, Copy, Debug)]
pub struct UntypedSum {
    bounds: Bounds,
    rows: u64,
}

impl Model for UntypedSum {
    ghost use Rattle.std.specs.Prelude.{ℕ};
    ghost use Rattle.tall_clamp.specs.declared.bounds.Bounds.{Bounds};
    ghost use Rattle.tall_clamp.specs.Folds.{IsSum};

    ghost Value = { Bounds × ℕ };

    ghost view = { λ s. (s.bounds, s.rows) };

    ghost invariant = { λ s. IsSum s.bounds s.rows };

    ghost inverse = { λ d. record { bounds = d.0; rows = d.1 } };
}

impl UntypedSum {
    /// The sum without its class. It asks for bounds that are those of so many rows.
    pub(crate) fn of(bounds: Bounds, rows: u64) -> UntypedSum
        requires { IsSum bounds rows }
        ensures { result ≡ (bounds, rows) }
    {
        UntypedSum { bounds, rows }
    }

    /// The sum of these rows and then the later ones, of one class and fewer than 2^40.
    pub fn join(self, later: UntypedSum) -> UntypedSum
        requires { self.1 + later.1 < 2 ^ 40 }
        ensures value { result ≡ joined_by after self later }
        ensures first { self.0.low ≤ℤ self.0.high }
        ensures second { later.0.low ≤ℤ later.0.high }
    {
        UntypedSum {
            bounds: one_after(self.bounds, later.bounds),
            rows: self.rows + later.rows,
        }
    }

    /// The saturating sum of the rows from a start on, a number of the class.
    pub fn sum_from(self, start: i128) -> i128
        requires low { negsuc 18446744073709551615 ≤ℤ start }
        requires high { start ≤ℤ pos 18446744073709551616 }
        ensures { result ≡ apply self.0 start }
    {
        between(self.bounds.low, self.bounds.high, start + self.bounds.shift)
    }
}
