//! One clamp function after another.
ghost use Rattle.std.specs.Prelude.{◌≡◌};
ghost use Rattle.tall_clamp.specs.Clamps.{after, cut_shift, IsRoomy};

use crate::bounds::{Bounds, between};

/// The first clamp function, and then the second.
pub(crate) fn one_after(first: Bounds, second: Bounds) -> Bounds
    requires first { IsRoomy first }
    requires second { IsRoomy second }
    ensures { result ≡ after first second }
{
    Bounds {
        shift: first.shift + second.shift,
        low: between(second.low, second.high, first.low + second.shift),
        high: between(second.low, second.high, first.high + second.shift),
    }
}

/// The greatest magnitude of a shift, 2^110: further out the shift alone decides, from each number of a class.
const FAR: i128 = 1 << 110;

/// The clamp function with its shift cut to 2^110 in magnitude.
pub(crate) fn within_reach(bounds: Bounds) -> Bounds
    ensures { result ≡ cut_shift bounds }
{
    Bounds {
        shift: between(-FAR, FAR, bounds.shift),
        ..bounds
    }
}
