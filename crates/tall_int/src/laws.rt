//! Laws of the definitions of numbers, each the contract of a function without a body.
ghost use Rattle.std.specs.Prelude.{◌≡◌, ◌≢◌, ◌+◌, ◌%◌, ℕ, ℤ, pos, min, max};
ghost use Rattle.tall_int.specs.Quotients.{quotient, IsCut, IsFloor, IsNearest};
ghost use Rattle.tall_int.specs.Twos.{bit_of, twos_and, twos_or, twos_xor};
ghost use Rattle.tall_int.specs.declared.quotients.Rounding.TheVariants.{Fix, Floor, Round};

/// What rounding means, with no division: twice the distance of the nearest whole number is at most the divisor, and a
/// tie goes outward; the floor leaves a rest with the divisor's sign that is smaller than the divisor, and the
/// cut goes inward.
pub fn quotients_are_rounded()
    ensures nearest { (p q : ℤ) → q ≢ pos 0 → IsNearest p q (quotient Round p q) }
    ensures floor { (p q : ℤ) → q ≢ pos 0 → IsFloor p q (quotient Floor p q) }
    ensures fix { (p q : ℤ) → q ≢ pos 0 → IsCut p q (quotient Fix p q) }
{}

/// What the bit operators mean: each bit of the result is that of the two bits.
pub fn bits_are_twos_complement()
    ensures both { (a b : ℤ) (i : ℕ) → bit_of (twos_and a b) i ≡ min (bit_of a i) (bit_of b i) }
    ensures either { (a b : ℤ) (i : ℕ) → bit_of (twos_or a b) i ≡ max (bit_of a i) (bit_of b i) }
    ensures one { (a b : ℤ) (i : ℕ) → bit_of (twos_xor a b) i ≡ (bit_of a i + bit_of b i) % 2 }
{}
