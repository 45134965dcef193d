//! The least and the greatest number of a column.
ghost use Rattle.std.specs.Prelude.{◌≡◌, ℤ, ℕ, ◌+◌, None, Some, refl};
ghost use Rattle.std.specs.Int.{int_max, int_min};
ghost use Rattle.std.proofs.Common.{◌∙◌};
ghost use Rattle.tall_clamp.specs.Folds.{joined_by, of_both, one_row};
ghost use Rattle.tall_clamp.specs.Outcomes.{numbers, picked};
ghost use Rattle.tall_clamp.specs.FoldLaws.{joined_by-assoc, joined_by-left, joined_by-right, held, of_both-assoc, of_both-none, int_min-assoc, int_max-assoc, picked_is};

use crate::folds::Fold;
use crate::terms::Term;
use std::marker::{Model, PhantomData};

/// Which of two numbers is kept.
pub trait Choice: Copy {
    ghost pick: { ℤ → ℤ → ℤ };

    /// The one of two numbers that is kept.
    fn of_two(a: i128, b: i128) -> i128
        ensures { result ≡ pick a b };

    ghost pick_associative: { (x y z : ℤ) → pick (pick x y) z ≡ pick x (pick y z) };
}

/// The smaller of two numbers.
#[derive(Clone, Copy, Debug)]
pub struct Smaller;

impl Choice for Smaller {
    ghost pick = { int_min };

    fn of_two(a: i128, b: i128) -> i128 {
        a.min(b)
    }

    ghost pick_associative = { int_min-assoc };
}

/// The larger of two numbers.
#[derive(Clone, Copy, Debug)]
pub struct Larger;

impl Choice for Larger {
    ghost pick = { int_max };

    fn of_two(a: i128, b: i128) -> i128 {
        a.max(b)
    }

    ghost pick_associative = { int_max-assoc };
}

/// The number that is kept, where one is there.
fn of_both<C: Choice>(a: Option<i128>, b: Option<i128>) -> Option<i128>
    ensures { result ≡ of_both C.pick a b }
{
    match (a, b) {
        (Some(x), Some(y)) => Some(C::of_two(x, y)),
        (Some(x), None) => Some(x),
        (None, y) => y,
    }
}

/// The number that is kept among all; NaN is passed over (MathWorks, min, max). There is none exactly where no number
/// was met: that NaN alone has no least number is the language's own rule.
#[derive(Clone, Copy, Debug)]
pub struct Extreme<C: Choice> {
    number: Option<i128>,
    rows: u64,
    choice: PhantomData<C>,
}

/// The least number of a column.
pub type Least = Extreme<Smaller>;

/// The greatest number of a column.
pub type Greatest = Extreme<Larger>;

impl<C: Choice> Model for Extreme<C> {
    ghost use Rattle.std.specs.Prelude.{ℕ, ℤ, Option};

    ghost Value = { Option ℤ × ℕ };

    ghost view = { λ s. (s.number, s.rows) };

    ghost inverse = { λ d. record { number = d.0; rows = d.1; choice = record {} } };
}

impl<C: Choice> Fold for Extreme<C> {
    type Input = Term;

    type Output = Option<i128>;

    ghost rows = { λ s. s.1 };

    ghost nothing = { (None, 0) };

    ghost one = { one_row (λ v. v) };

    ghost joined = { joined_by (of_both C.pick) };

    ghost is_fold = { λ _. Unit {0} };

    ghost is_input = { λ _. Unit {0} };

    ghost finishes = { λ s r. r ≡ s.0 };

    ghost defined = { λ vs r. r ≡ picked C.pick (numbers vs) };

    fn unit() -> Extreme<C> {
        Extreme {
            number: None,
            rows: 0,
            choice: PhantomData,
        }
    }

    fn step(self, v: Term) -> Extreme<C> {
        Extreme {
            number: of_both::<C>(self.number, v.get()),
            rows: self.rows + 1,
            choice: PhantomData,
        }
    }

    fn join(self, later: Extreme<C>) -> Extreme<C> {
        Extreme {
            number: of_both::<C>(self.number, later.number),
            rows: self.rows + later.rows,
            choice: PhantomData,
        }
    }

    fn finish(self) -> Option<i128> {
        self.number
    }

    ghost unit_rows = { refl };

    ghost one_rows = { λ v. refl };

    ghost joined_rows = { λ a b. refl };

    ghost unit_is_fold = { tt };

    ghost one_is_fold = { λ v h. tt };

    ghost joined_is_fold = { λ a b p q few. tt };

    ghost associative = { λ a b c p q r. joined_by-assoc (of_both C.pick) a b c (of_both-assoc C.pick C.pick_associative a.0 b.0 c.0) };

    ghost left_unit = { λ a p. joined_by-left (of_both C.pick) None a refl };

    ghost right_unit = { λ a p. joined_by-right (of_both C.pick) None a (of_both-none C.pick a.0) };

    ghost whole = { λ vs r p few e. e ∙ held (of_both C.pick) (λ v. v) (None, 0) vs ∙ picked_is C.pick vs };
}
