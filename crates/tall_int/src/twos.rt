//! Bit operators of integer classes, in two's complement.
ghost use Rattle.std.specs.Prelude.{◌≡◌};
ghost use Rattle.tall_int.specs.Twos.{twos_and, twos_or, twos_xor};

use crate::class::{IntClass, clamp};

/// The bits that both values have (MathWorks, bitand).
pub fn bit_and<I: IntClass>(a: I, b: I) -> I
    ensures { I.number result ≡ twos_and (I.number a) (I.number b) }
{
    clamp(a.wide() & b.wide())
}

/// The bits that at least one of the values has (MathWorks, bitor).
pub fn bit_or<I: IntClass>(a: I, b: I) -> I
    ensures { I.number result ≡ twos_or (I.number a) (I.number b) }
{
    clamp(a.wide() | b.wide())
}

/// The bits that just one of the values has (MathWorks, bitxor).
pub fn bit_xor<I: IntClass>(a: I, b: I) -> I
    ensures { I.number result ≡ twos_xor (I.number a) (I.number b) }
{
    clamp(a.wide() ^ b.wide())
}
