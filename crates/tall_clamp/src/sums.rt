//! Saturating sums of an integer class.
ghost use Rattle.std.specs.Prelude.{◌≡◌, ℤ, ℕ, ◌+◌, ◌<◌, ◌^◌, ◌≤ℤ◌, pos, refl, length, map};
ghost use Rattle.std.proofs.Common.{◌∙◌};
ghost use Rattle.tall_int.specs.Numbers.{nearest};
ghost use Rattle.tall_int.specs.Sums.{clamped_sum};
ghost use Rattle.tall_clamp.specs.Clamps.{after, apply, row_clamp};
ghost use Rattle.tall_clamp.specs.Folds.{joined_by, no_clamp, of_rows, one_row, IsSum};
ghost use Rattle.tall_clamp.specs.SumLaws.{no_clamp_is_sum, row_is_sum, after_is_sum, after-assoc, after-left, after-right, saturated_sum};

use crate::bounds::{Bounds, between};
use crate::folds::Fold;
use crate::join::one_after;
use crate::runs::of_run;
use crate::untyped::UntypedSum;
use std::marker::{Model, PhantomData};
use tall_int::{IntClass, clamp};

/// The sum of a column in its class (MathWorks, sum with 'native'). That each row is added in the class, so that the sum
/// saturates row by row from the first on, is the language's own rule.
///
/// A fold of rows is kept as the clamp function from the sum before them to the sum after them, so that blocks can be
/// folded apart and joined.
#[derive(Clone, Copy, Debug)]
pub struct ClampSum<I: IntClass> {
    bounds: Bounds,
    rows: u64,
    class: PhantomData<I>,
}

impl<I: IntClass> Model for ClampSum<I> {
    ghost use Rattle.std.specs.Prelude.{ℕ};
    ghost use Rattle.tall_clamp.specs.declared.bounds.Bounds.{Bounds};
    ghost use Rattle.tall_clamp.specs.Folds.{IsSum};

    ghost Value = { Bounds × ℕ };

    ghost view = { λ s. (s.bounds, s.rows) };

    ghost invariant = { λ s. IsSum s.bounds s.rows };

    ghost inverse = { λ d. record { bounds = d.0; rows = d.1; class = record {} } };
}

/// The ends of the unit, wider than those of each class.
const WIDE: i128 = 1 << 120;

impl<I: IntClass> ClampSum<I> {
    /// The sum of one row.
    fn of_value(v: I) -> ClampSum<I>
        ensures value { result ≡ (row_clamp I.MIN I.MAX (I.number v), 1) }
        ensures input { (I.MIN ≤ℤ I.number v) × (I.number v ≤ℤ I.MAX) }
    {
        ClampSum {
            bounds: Bounds {
                shift: v.wide(),
                low: I::MIN,
                high: I::MAX,
            },
            rows: 1,
            class: PhantomData,
        }
    }

    /// The fold of a slice's rows in one loop: what `fold_rows` gives.
    pub fn of_slice(rows: &[I]) -> ClampSum<I>
        requires { length rows.now < 2 ^ 40 }
        ensures { result ≡ of_rows (joined_by after) (one_row (λ v. row_clamp I.MIN I.MAX (I.number v))) (no_clamp, 0) rows.now }
    {
        match rows {
            [] => ClampSum::unit(),
            [first, rest @ ..] => ClampSum {
                bounds: of_run(*first, rest),
                rows: 1 + rest.len() as u64,
                class: PhantomData,
            },
        }
    }

    /// The sum where its class is known beside it.
    pub fn untyped(self) -> UntypedSum
        ensures { result ≡ self }
    {
        UntypedSum::of(self.bounds, self.rows)
    }

    /// The saturating sum of the rows from a start on, as a running sum over earlier rows.
    pub fn sum_from(self, start: I) -> I
        ensures { I.number result ≡ nearest I.MIN I.MAX (apply self.0 (I.number start)) }
    {
        clamp(between(
            self.bounds.low,
            self.bounds.high,
            start.wide() + self.bounds.shift,
        ))
    }
}

impl<I: IntClass> Fold for ClampSum<I> {
    type Input = I;

    type Output = I;

    ghost rows = { λ s. s.1 };

    ghost nothing = { (no_clamp, 0) };

    ghost one = { one_row (λ v. row_clamp I.MIN I.MAX (I.number v)) };

    ghost joined = { joined_by after };

    ghost is_fold = { λ s. IsSum s.0 s.1 };

    ghost is_input = { λ v. (I.MIN ≤ℤ I.number v) × (I.number v ≤ℤ I.MAX) };

    ghost finishes = { λ s r. I.number r ≡ nearest I.MIN I.MAX (apply s.0 (pos 0)) };

    ghost defined = { λ vs r. I.number r ≡ clamped_sum I.MIN I.MAX (pos 0) (map I.number vs) };

    fn unit() -> ClampSum<I> {
        ClampSum {
            bounds: Bounds {
                shift: 0,
                low: -WIDE,
                high: WIDE,
            },
            rows: 0,
            class: PhantomData,
        }
    }

    fn step(self, v: I) -> ClampSum<I> {
        self.join(ClampSum::of_value(v))
    }

    fn join(self, later: ClampSum<I>) -> ClampSum<I> {
        ClampSum {
            bounds: one_after(self.bounds, later.bounds),
            rows: self.rows + later.rows,
            class: PhantomData,
        }
    }

    fn finish(self) -> I {
        self.sum_from(I::from_wide(0))
    }

    ghost unit_rows = { refl };

    ghost one_rows = { λ v. refl };

    ghost joined_rows = { λ a b. refl };

    ghost unit_is_fold = { no_clamp_is_sum };

    ghost one_is_fold = { λ v h. row_is_sum I.MIN I.MAX (I.number v) I.narrow.0 I.narrow.1 h.0 h.1 };

    ghost joined_is_fold = { λ a b p q few. after_is_sum a.0 b.0 a.1 b.1 p q few };

    ghost associative = { λ a b c p q r. after-assoc a b c q r };

    ghost left_unit = { λ a p. after-left a p };

    ghost right_unit = { λ a p. after-right a p };

    ghost whole = { λ vs r p few e. e ∙ saturated_sum I.MIN I.MAX I.number vs I.narrow.2 I.narrow.3 };
}
