//! The exact total of a column of doubles.
ghost use Rattle.std.specs.Prelude.{◌≡◌, ℤ, ℕ, ◌<◌, ◌^◌, pos, length, map, None, Some, refl};
ghost use Rattle.std.proofs.Common.{◌∙◌, ap};
ghost use Rattle.tall_clamp.specs.Folds.{added, joined_by, of_rows, one_row, IsTerm, IsTotal};
ghost use Rattle.tall_clamp.specs.Outcomes.{as_double, exact_sum, total};
ghost use Rattle.tall_clamp.specs.FoldLaws.{joined_by-assoc, joined_by-left, joined_by-right, held, added-assoc, added-zero, zero-added, added_is_total, term_is_total, nothing_is_total, total_outcome, exact_sum_is};

use crate::folds::Fold;
use crate::runs::{plus, total_of};
use crate::terms::Term;
use std::marker::Model;
use tall_int::{IntClass, Whole};

/// The exact total of terms: NaN where a NaN was met (MathWorks, sum), and else none exactly where the total is above
/// 2^53 in magnitude. That the total is exact, and only the total must be a double, is the language's own rule.
#[derive(Clone, Copy, Debug)]
pub struct ExactSum {
    total: Option<i128>,
    rows: u64,
}

impl Model for ExactSum {
    ghost use Rattle.std.specs.Prelude.{ℕ, ℤ, Option};
    ghost use Rattle.tall_clamp.specs.Folds.{IsTotal};

    ghost Value = { Option ℤ × ℕ };

    ghost view = { λ s. (s.total, s.rows) };

    ghost invariant = { λ s. IsTotal s.total s.rows };

    ghost inverse = { λ d. record { total = d.0; rows = d.1 } };
}

/// The sum of two totals, none where one is none.
fn sum(a: Option<i128>, b: Option<i128>) -> Option<i128>
    requires first { IsTotal a (2 ^ 40) }
    requires second { IsTotal b (2 ^ 40) }
    ensures { result ≡ added a b }
{
    match (a, b) {
        (Some(x), Some(y)) => Some(x + y),
        _ => None,
    }
}

/// A number as a double; none where its magnitude is above 2^53.
fn double(n: i128) -> Option<Whole>
    ensures { result ≡ as_double n }
{
    Whole::of_number(n).ok()
}

impl ExactSum {
    /// The exact sum of a slice of an integer class in one loop: what `fold_rows` gives of its terms.
    pub fn of_ints<I: IntClass>(rows: &[I]) -> ExactSum
        requires { length rows.now < 2 ^ 40 }
        ensures fold { result ≡ of_rows (joined_by added) (one_row (λ v. v)) (Some (pos 0), 0) (map (λ v. Some (I.number v)) rows.now) }
        ensures total { result ≡ (Some (total (map I.number rows.now)), length rows.now) }
    {
        ExactSum {
            total: Some(total_of(rows)),
            rows: rows.len() as u64,
        }
    }

    /// The exact sum of a slice of doubles in one loop: what `fold_rows` gives of its terms.
    pub fn of_wholes(rows: &[Whole]) -> ExactSum
        requires { length rows.now < 2 ^ 40 }
        ensures { result ≡ of_rows (joined_by added) (one_row (λ v. v)) (Some (pos 0), 0) rows.now }
    {
        let mut total = 0i128;
        for v in rows {
            match v.get() {
                Some(n) => total = plus(total, n),
                None => {
                    return ExactSum {
                        total: None,
                        rows: rows.len() as u64,
                    };
                }
            }
        }
        ExactSum {
            total: Some(total),
            rows: rows.len() as u64,
        }
    }
}

impl Fold for ExactSum {
    type Input = Term;

    type Output = Option<Whole>;

    ghost rows = { λ s. s.1 };

    ghost nothing = { (Some (pos 0), 0) };

    ghost one = { one_row (λ v. v) };

    ghost joined = { joined_by added };

    ghost is_fold = { λ s. IsTotal s.0 s.1 };

    ghost is_input = { IsTerm };

    ghost finishes = { λ s r. r ≡ total_outcome s.0 };

    ghost defined = { λ vs r. r ≡ exact_sum vs };

    fn unit() -> ExactSum {
        ExactSum {
            total: Some(0),
            rows: 0,
        }
    }

    fn step(self, v: Term) -> ExactSum {
        ExactSum {
            total: sum(self.total, v.get()),
            rows: self.rows + 1,
        }
    }

    fn join(self, later: ExactSum) -> ExactSum {
        ExactSum {
            total: sum(self.total, later.total),
            rows: self.rows + later.rows,
        }
    }

    fn finish(self) -> Option<Whole> {
        match self.total {
            Some(total) => double(total),
            None => Some(Whole::nan()),
        }
    }

    ghost unit_rows = { refl };

    ghost one_rows = { λ v. refl };

    ghost joined_rows = { λ a b. refl };

    ghost unit_is_fold = { nothing_is_total };

    ghost one_is_fold = { λ v h. term_is_total v h };

    ghost joined_is_fold = { λ a b p q few. added_is_total a.0 b.0 a.1 b.1 p q };

    ghost associative = { λ a b c p q r. joined_by-assoc added a b c (added-assoc a.0 b.0 c.0) };

    ghost left_unit = { λ a p. joined_by-left added (Some (pos 0)) a (zero-added a.0) };

    ghost right_unit = { λ a p. joined_by-right added (Some (pos 0)) a (added-zero a.0) };

    ghost whole = { λ vs r p few e. e ∙ ap total_outcome (held added (λ v. v) (Some (pos 0), 0) vs) ∙ exact_sum_is vs };
}
