//! The exact total of a group.
ghost use Rattle.std.specs.Prelude.{◌≡◌, ℤ, ◌+ℤ◌, ◌≤ℤ◌, pos, negsuc, refl, IfSome, option_map};
ghost use Rattle.tall_value.specs.declared.class.Kind.TheVariants.{Double};
ghost use Rattle.tall_value.specs.Cells.{Seen, seen, seen_kind};
ghost use Rattle.tall_clamp.specs.Folds.{IsTotal};
ghost use Rattle.tall_group.specs.States.{IsTotalOf, IsWithin, IsRange, double_or_none, total_given};
ghost use Rattle.tall_value.specs.CellOperators.{or_zero};

use crate::states::GroupState;
use std::marker::Model;
use tall_int::Whole;
use tall_value::{Cell, Kind};

/// The exact total of the numbers; NaN is passed over.
#[derive(Clone, Copy)]
pub(crate) struct Total {
    total: i128,
    rows: u64,
}

impl Model for Total {
    ghost use Rattle.std.specs.Prelude.{ℕ, ℤ, Some};
    ghost use Rattle.tall_clamp.specs.Folds.{IsTotal};

    ghost Value = { ℤ × ℕ };

    ghost view = { λ s. (s.total, s.rows) };

    ghost invariant = { λ s. IsTotal (Some s.total) s.rows };

    ghost inverse = { λ d. record { total = d.0; rows = d.1 } };
}

/// The number, or 0 for NaN.
fn or_zero(low: i128, high: i128, datum: Option<i128>) -> i128
    requires range { IsRange low high }
    requires within { IsWithin low high datum }
    ensures number { result ≡ or_zero datum }
    ensures low { negsuc 18446744073709551615 ≤ℤ result }
    ensures high { result ≤ℤ pos 18446744073709551616 }
{
    match datum {
        Some(n) => n,
        None => 0,
    }
}

/// The cell of a double; none where its magnitude is above 2^53.
pub(crate) fn double_cell<'a>(n: i128) -> Option<Cell<'a>>
    ensures cell { option_map seen result ≡ double_or_none n }
    ensures kind { IfSome result (λ c. seen_kind (seen c) ≡ Double) }
{
    match Whole::of_number(n) {
        Ok(whole) => Some(Cell::Double(whole)),
        Err(_) => None,
    }
}

impl GroupState for Total {
    ghost rows = { λ s. s.1 };

    ghost of = { λ low high ds s. IsTotalOf ds s };

    ghost nothing = { (pos 0, 0) };

    ghost gives = { total_given };

    ghost kind_given = { λ a. Double };

    fn none() -> Total {
        Total { total: 0, rows: 0 }
    }

    fn step(self, low: i128, high: i128, datum: Option<i128>) -> Total {
        Total {
            total: self.total + or_zero(low, high, datum),
            rows: self.rows + 1,
        }
    }

    fn join(self, later: Total) -> Total {
        Total {
            total: self.total + later.total,
            rows: self.rows + later.rows,
        }
    }

    fn count(self) -> u64 {
        self.rows
    }

    fn value<'a>(self, _kind: Kind) -> Option<Cell<'a>> {
        double_cell(self.total)
    }

    fn value_kind(_kind: Kind) -> Kind {
        Kind::Double
    }

    ghost of_nothing = { λ low high r. (refl, refl) };

    ghost rows_of = { λ low high ds s h. h.1 };
}
