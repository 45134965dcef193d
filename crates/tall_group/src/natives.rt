//! The sum of a group in its class.
ghost use Rattle.std.specs.Prelude.{◌≡◌, ℤ, option_map, refl};
ghost use Rattle.tall_int.specs.Numbers.{nearest};
ghost use Rattle.tall_clamp.specs.Clamps.{apply};
ghost use Rattle.tall_clamp.specs.Folds.{no_clamp};
ghost use Rattle.tall_value.specs.declared.class.Kind.{Kind};
ghost use Rattle.tall_value.specs.Cells.{Seen, seen, seen_kind};
ghost use Rattle.tall_group.specs.States.{IsNativeOf, native_cell, native_given, native_kind};
ghost use Rattle.tall_group.specs.StateLaws.{none_native};

use crate::limits::{Limits, between, no_limits, one_after, row_limits};
use crate::states::GroupState;
use std::marker::Model;
use tall_int::Whole;
use tall_value::{Cell, Kind};

/// The sum in an integer class, kept as the clamp function from the sum before the rows to the sum after them.
#[derive(Clone, Copy)]
pub(crate) struct NativeSum {
    limits: Limits,
    rows: u64,
}

impl Model for NativeSum {
    ghost use Rattle.std.specs.Prelude.{ℕ};
    ghost use Rattle.tall_clamp.specs.declared.bounds.Bounds.{Bounds};
    ghost use Rattle.tall_clamp.specs.Folds.{IsSum};
    ghost use Rattle.tall_group.specs.Limits.{bounds_of, limits_of};

    ghost Value = { Bounds × ℕ };

    ghost view = { λ s. (bounds_of s.limits, s.rows) };

    ghost invariant = { λ s. IsSum (bounds_of s.limits) s.rows };

    ghost inverse = { λ d. record { limits = limits_of d.0; rows = d.1 } };
}

/// The cell of a kind whose sum goes from 0 to a number.
fn native_cell<'a>(kind: Kind, n: i128) -> Cell<'a>
    ensures cell { seen result ≡ native_cell kind n }
    ensures kind { seen_kind (seen result) ≡ native_kind kind }
{
    match kind {
        Kind::Integer(class) => Cell::of_class(class, n),
        _ => Cell::Double(Whole::nan()),
    }
}

impl GroupState for NativeSum {
    ghost rows = { λ s. s.1 };

    ghost of = { IsNativeOf };

    ghost nothing = { (no_clamp, 0) };

    ghost gives = { native_given };

    ghost kind_given = { native_kind };

    fn none() -> NativeSum {
        NativeSum {
            limits: no_limits(),
            rows: 0,
        }
    }

    fn step(self, low: i128, high: i128, datum: Option<i128>) -> NativeSum {
        NativeSum {
            limits: one_after(self.limits, row_limits(low, high, datum)),
            rows: self.rows + 1,
        }
    }

    fn join(self, later: NativeSum) -> NativeSum {
        NativeSum {
            limits: one_after(self.limits, later.limits),
            rows: self.rows + later.rows,
        }
    }

    fn count(self) -> u64 {
        self.rows
    }

    fn value<'a>(self, kind: Kind) -> Option<Cell<'a>> {
        Some(native_cell(
            kind,
            between(self.limits.low, self.limits.high, self.limits.shift),
        ))
    }

    fn value_kind(kind: Kind) -> Kind {
        match kind {
            Kind::Integer(class) => Kind::Integer(class),
            _ => Kind::Double,
        }
    }

    ghost of_nothing = { λ low high r. (none_native low high r, refl) };

    ghost rows_of = { λ low high ds s h. h.1 };
}
