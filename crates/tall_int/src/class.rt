//! The eight integer classes.
ghost use Rattle.std.specs.Prelude.{◌≡◌, ℤ, ℕ, List, pos, negsuc, codes, ◌≤ℤ◌};
ghost use Rattle.std.proofs.Common.{rules};
ghost use Rattle.tall_int.specs.Numbers.{nearest, IsTwosRange, signed, unsigned};

/// An integer class of the language: a range of whole numbers, and its name.
pub trait IntClass: Copy {
    /// The least number of the class.
    const MIN: i128;

    /// The greatest number of the class.
    const MAX: i128;

    ghost MIN: { ℤ };

    ghost MAX: { ℤ };

    ghost label: { List ℕ };

    ghost number: { Self → ℤ };

    /// The class's name in scripts, as `int8`.
    fn name() -> &'static str
        ensures { result.now ≡ label };

    /// The number of a value.
    fn wide(self) -> i128
        ensures number { result ≡ number self }
        ensures low { MIN ≤ℤ result }
        ensures high { result ≤ℤ MAX };

    /// The value of a number from `MIN` to `MAX`.
    fn from_wide(n: i128) -> Self
        requires low { MIN ≤ℤ n }
        requires high { n ≤ℤ MAX }
        ensures { number result ≡ n };

    // Values of one number are one value.
    ghost exact: { (x y : Self) → number x ≡ number y → x ≡ y };

    // The ends are within 2^64 of 0, and the range has 0 to 127.
    ghost narrow: { (negsuc 18446744073709551615 ≤ℤ MIN) × (MAX ≤ℤ pos 18446744073709551616) × (MIN ≤ℤ pos 0) × (pos 127 ≤ℤ MAX) };

    // The range is that of the two's complement numbers of a width.
    ghost width: { IsTwosRange MIN MAX };
}

impl IntClass for i8 {
    const MIN: i128 = i8::MIN as i128;

    const MAX: i128 = i8::MAX as i128;

    ghost MIN = { negsuc 127 };

    ghost MAX = { pos 127 };

    ghost label = { codes "int8" };

    ghost number = { λ x. x };

    fn name() -> &'static str {
        "int8"
    }

    fn wide(self) -> i128 {
        self as i128
    }

    fn from_wide(n: i128) -> i8 {
        n as i8
    }

    ghost exact = { λ x y e. e };

    ghost narrow = { Prim.search rules };

    ghost width = { signed 7 };
}

impl IntClass for i16 {
    const MIN: i128 = i16::MIN as i128;

    const MAX: i128 = i16::MAX as i128;

    ghost MIN = { negsuc 32767 };

    ghost MAX = { pos 32767 };

    ghost label = { codes "int16" };

    ghost number = { λ x. x };

    fn name() -> &'static str {
        "int16"
    }

    fn wide(self) -> i128 {
        self as i128
    }

    fn from_wide(n: i128) -> i16 {
        n as i16
    }

    ghost exact = { λ x y e. e };

    ghost narrow = { Prim.search rules };

    ghost width = { signed 15 };
}

impl IntClass for i32 {
    const MIN: i128 = i32::MIN as i128;

    const MAX: i128 = i32::MAX as i128;

    ghost MIN = { negsuc 2147483647 };

    ghost MAX = { pos 2147483647 };

    ghost label = { codes "int32" };

    ghost number = { λ x. x };

    fn name() -> &'static str {
        "int32"
    }

    fn wide(self) -> i128 {
        self as i128
    }

    fn from_wide(n: i128) -> i32 {
        n as i32
    }

    ghost exact = { λ x y e. e };

    ghost narrow = { Prim.search rules };

    ghost width = { signed 31 };
}

impl IntClass for i64 {
    const MIN: i128 = i64::MIN as i128;

    const MAX: i128 = i64::MAX as i128;

    ghost MIN = { negsuc 9223372036854775807 };

    ghost MAX = { pos 9223372036854775807 };

    ghost label = { codes "int64" };

    ghost number = { λ x. x };

    fn name() -> &'static str {
        "int64"
    }

    fn wide(self) -> i128 {
        self as i128
    }

    fn from_wide(n: i128) -> i64 {
        n as i64
    }

    ghost exact = { λ x y e. e };

    ghost narrow = { Prim.search rules };

    ghost width = { signed 63 };
}

impl IntClass for u8 {
    const MIN: i128 = u8::MIN as i128;

    const MAX: i128 = u8::MAX as i128;

    ghost MIN = { pos 0 };

    ghost MAX = { pos 255 };

    ghost label = { codes "uint8" };

    ghost number = { λ x. pos x };

    fn name() -> &'static str {
        "uint8"
    }

    fn wide(self) -> i128 {
        self as i128
    }

    fn from_wide(n: i128) -> u8 {
        n as u8
    }

    ghost exact = { Prim.search rules };

    ghost narrow = { Prim.search rules };

    ghost width = { unsigned 8 };
}

impl IntClass for u16 {
    const MIN: i128 = u16::MIN as i128;

    const MAX: i128 = u16::MAX as i128;

    ghost MIN = { pos 0 };

    ghost MAX = { pos 65535 };

    ghost label = { codes "uint16" };

    ghost number = { λ x. pos x };

    fn name() -> &'static str {
        "uint16"
    }

    fn wide(self) -> i128 {
        self as i128
    }

    fn from_wide(n: i128) -> u16 {
        n as u16
    }

    ghost exact = { Prim.search rules };

    ghost narrow = { Prim.search rules };

    ghost width = { unsigned 16 };
}

impl IntClass for u32 {
    const MIN: i128 = u32::MIN as i128;

    const MAX: i128 = u32::MAX as i128;

    ghost MIN = { pos 0 };

    ghost MAX = { pos 4294967295 };

    ghost label = { codes "uint32" };

    ghost number = { λ x. pos x };

    fn name() -> &'static str {
        "uint32"
    }

    fn wide(self) -> i128 {
        self as i128
    }

    fn from_wide(n: i128) -> u32 {
        n as u32
    }

    ghost exact = { Prim.search rules };

    ghost narrow = { Prim.search rules };

    ghost width = { unsigned 32 };
}

impl IntClass for u64 {
    const MIN: i128 = u64::MIN as i128;

    const MAX: i128 = u64::MAX as i128;

    ghost MIN = { pos 0 };

    ghost MAX = { pos 18446744073709551615 };

    ghost label = { codes "uint64" };

    ghost number = { λ x. pos x };

    fn name() -> &'static str {
        "uint64"
    }

    fn wide(self) -> i128 {
        self as i128
    }

    fn from_wide(n: i128) -> u64 {
        n as u64
    }

    ghost exact = { Prim.search rules };

    ghost narrow = { Prim.search rules };

    ghost width = { unsigned 64 };
}

/// The value of the class that is nearest to a whole number (MathWorks, Integers: numbers out of range become the
/// nearest end).
pub fn clamp<I: IntClass>(n: i128) -> I
    ensures { I.number result ≡ nearest I.MIN I.MAX n }
{
    I::from_wide(n.min(I::MAX).max(I::MIN))
}
