//! Clamp functions as three numbers.
ghost use Rattle.std.specs.Prelude.{◌≡◌};
ghost use Rattle.tall_int.specs.Numbers.{nearest};

/// The function from x to the number from `low` to `high` that is nearest to x + `shift`.
#[derive(Clone, Copy, Debug)]
pub(crate) struct Bounds {
    pub shift: i128,
    pub low: i128,
    pub high: i128,
}

/// The number from `low` to `high` that is nearest to n.
pub(crate) fn between(low: i128, high: i128, n: i128) -> i128
    ensures { result ≡ nearest low high n }
{
    n.min(high).max(low)
}
