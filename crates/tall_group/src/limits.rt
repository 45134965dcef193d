//! Clamp functions, one after the other.
ghost use Rattle.std.specs.Prelude.{◌≡◌};
ghost use Rattle.tall_int.specs.Numbers.{nearest};
ghost use Rattle.tall_clamp.specs.Clamps.{after, IsRoomy};
ghost use Rattle.tall_clamp.specs.Folds.{no_clamp};
ghost use Rattle.tall_group.specs.Limits.{bounds_of};
ghost use Rattle.tall_group.specs.StateLaws.{row_or_none};

/// The function from x to the number from `low` to `high` that is nearest to x + `shift`.
#[derive(Clone, Copy)]
pub(crate) struct Limits {
    pub shift: i128,
    pub low: i128,
    pub high: i128,
}

/// Ends that are wider than those of each class.
const WIDE: i128 = 1 << 120;

/// Adds nothing, and keeps each number of a class.
pub(crate) fn no_limits() -> Limits
    ensures { bounds_of result ≡ no_clamp }
{
    Limits {
        shift: 0,
        low: -WIDE,
        high: WIDE,
    }
}

/// The function of a row in a class with these ends.
pub(crate) fn row_limits(low: i128, high: i128, datum: Option<i128>) -> Limits
    ensures { bounds_of result ≡ row_or_none low high datum }
{
    match datum {
        Some(n) => Limits {
            shift: n,
            low,
            high,
        },
        None => no_limits(),
    }
}

/// The number from `low` to `high` that is nearest to n.
pub(crate) fn between(low: i128, high: i128, n: i128) -> i128
    ensures { result ≡ nearest low high n }
{
    n.min(high).max(low)
}

/// The first function, and then the second.
pub(crate) fn one_after(first: Limits, second: Limits) -> Limits
    requires first { IsRoomy (bounds_of first) }
    requires second { IsRoomy (bounds_of second) }
    ensures { bounds_of result ≡ after (bounds_of first) (bounds_of second) }
{
    Limits {
        shift: first.shift + second.shift,
        low: between(second.low, second.high, first.low + second.shift),
        high: between(second.low, second.high, first.high + second.shift),
    }
}
