//! Integer classes in machine integers wide enough for their sums, differences and products.
ghost use Rattle.std.specs.Prelude.{◌≡◌, ◌+ℤ◌, ◌-ℤ◌, ◌*ℤ◌, ◌≤ℤ◌, ℤ, map, negsuc, option_map, pos, refl};
ghost use Rattle.std.proofs.Common.{rules};
ghost use Rattle.tall_int.specs.Numbers.{nearest};
ghost use Rattle.tall_value.specs.declared.class.Class.TheVariants as class;
ghost use Rattle.tall_value.specs.declared.class.IntKind.{IntKind};
ghost use Rattle.tall_value.specs.declared.class.IntKind.TheVariants.{Int8, Int16, Int32, Int64, Uint8, Uint16, Uint32, Uint64};
ghost use Rattle.tall_value.specs.declared.class.Kind.TheVariants.{Integer as integer_kind};
ghost use Rattle.tall_value.specs.Cells.{whole};
ghost use Rattle.tall_value.specs.Classes.{class_of, greatest, least};
ghost use Rattle.tall_dense.specs.Dense.{shown};
ghost use Rattle.tall_dense.specs.Ranges.{in_range};

use crate::values::Values;
use tall_int::IntClass;
use tall_value::IntKind;

/// A machine integer, whose arithmetic goes to the nearer end where a result does not fit.
pub trait Wide: Copy {
    ghost low: { ℤ };

    ghost high: { ℤ };

    ghost value: { Self → ℤ };

    /// The machine integer of a number; none exactly where the number does not fit.
    fn of(n: i128) -> Option<Self>
        ensures { option_map value result ≡ in_range low high n };

    /// The number.
    fn amount(self) -> i128
        ensures { result ≡ value self };

    fn plus(self, other: Self) -> Self
        ensures { value result ≡ nearest low high (value self +ℤ value other) };

    fn minus(self, other: Self) -> Self
        ensures { value result ≡ nearest low high (value self -ℤ value other) };

    fn times(self, other: Self) -> Self
        ensures { value result ≡ nearest low high (value self *ℤ value other) };
}

impl Wide for i32 {
    ghost low = { negsuc 2147483647 };

    ghost high = { pos 2147483647 };

    ghost value = { λ n. n };

    fn of(n: i128) -> Option<i32> {
        if i32::MIN as i128 <= n && n <= i32::MAX as i128 {
            Some(n as i32)
        } else {
            None
        }
    }

    fn amount(self) -> i128 {
        self as i128
    }

    fn plus(self, other: i32) -> i32 {
        self.saturating_add(other)
    }

    fn minus(self, other: i32) -> i32 {
        self.saturating_sub(other)
    }

    fn times(self, other: i32) -> i32 {
        self.saturating_mul(other)
    }
}

impl Wide for i64 {
    ghost low = { negsuc 9223372036854775807 };

    ghost high = { pos 9223372036854775807 };

    ghost value = { λ n. n };

    fn of(n: i128) -> Option<i64> {
        if i64::MIN as i128 <= n && n <= i64::MAX as i128 {
            Some(n as i64)
        } else {
            None
        }
    }

    fn amount(self) -> i128 {
        self as i128
    }

    fn plus(self, other: i64) -> i64 {
        self.saturating_add(other)
    }

    fn minus(self, other: i64) -> i64 {
        self.saturating_sub(other)
    }

    fn times(self, other: i64) -> i64 {
        self.saturating_mul(other)
    }
}

impl Wide for u64 {
    ghost low = { pos 0 };

    ghost high = { pos 18446744073709551615 };

    ghost value = { λ n. pos n };

    fn of(n: i128) -> Option<u64> {
        if u64::MIN as i128 <= n && n <= u64::MAX as i128 {
            Some(n as u64)
        } else {
            None
        }
    }

    fn amount(self) -> i128 {
        self as i128
    }

    fn plus(self, other: u64) -> u64 {
        self.saturating_add(other)
    }

    fn minus(self, other: u64) -> u64 {
        self.saturating_sub(other)
    }

    fn times(self, other: u64) -> u64 {
        self.saturating_mul(other)
    }
}

/// An integer class whose values a column keeps as they are.
pub trait Integer: IntClass {
    /// Sums, differences and products of two values fit, or go to an end that is an end of the class or beyond it.
    type Wide: Wide;

    /// The class among the eight.
    const KIND: IntKind;

    ghost KIND: { IntKind };

    /// The value's number.
    fn widen(self) -> Self::Wide
        ensures { Self.Wide.value result ≡ Self.number self };

    /// The value nearest to a number.
    fn narrow(n: Self::Wide) -> Self
        ensures { Self.number result ≡ nearest Self.MIN Self.MAX (Self.Wide.value n) };

    /// The values of a column.
    fn column(items: Vec<Self>) -> Values
        ensures { shown result ≡ record { class = class_of (integer_kind KIND); cells = map (λ x. whole KIND (Self.number x)) items.items } };

    ghost least_is: { least KIND ≡ Self.MIN };

    ghost greatest_is: { greatest KIND ≡ Self.MAX };

    ghost within: { (Self.Wide.low ≤ℤ Self.MIN) × (Self.MIN ≤ℤ Self.MAX) × (Self.MAX ≤ℤ Self.Wide.high) };
}

impl Integer for i8 {
    type Wide = i32;

    const KIND: IntKind = IntKind::Int8;

    ghost KIND = { Int8 };

    fn widen(self) -> i32 {
        self as i32
    }

    fn narrow(n: i32) -> i8 {
        n.clamp(i8::MIN as i32, i8::MAX as i32) as i8
    }

    fn column(items: Vec<i8>) -> Values
        ensures { shown result ≡ record { class = class.Int8; cells = map (λ n. whole Int8 n) items.items } }
    {
        Values::I8(items)
    }

    ghost least_is = { refl };

    ghost greatest_is = { refl };

    ghost within = { Prim.search rules };
}

impl Integer for i16 {
    type Wide = i32;

    const KIND: IntKind = IntKind::Int16;

    ghost KIND = { Int16 };

    fn widen(self) -> i32 {
        self as i32
    }

    fn narrow(n: i32) -> i16 {
        n.clamp(i16::MIN as i32, i16::MAX as i32) as i16
    }

    fn column(items: Vec<i16>) -> Values
        ensures { shown result ≡ record { class = class.Int16; cells = map (λ n. whole Int16 n) items.items } }
    {
        Values::I16(items)
    }

    ghost least_is = { refl };

    ghost greatest_is = { refl };

    ghost within = { Prim.search rules };
}

impl Integer for i32 {
    type Wide = i64;

    const KIND: IntKind = IntKind::Int32;

    ghost KIND = { Int32 };

    fn widen(self) -> i64 {
        self as i64
    }

    fn narrow(n: i64) -> i32 {
        n.clamp(i32::MIN as i64, i32::MAX as i64) as i32
    }

    fn column(items: Vec<i32>) -> Values
        ensures { shown result ≡ record { class = class.Int32; cells = map (λ n. whole Int32 n) items.items } }
    {
        Values::I32(items)
    }

    ghost least_is = { refl };

    ghost greatest_is = { refl };

    ghost within = { Prim.search rules };
}

impl Integer for i64 {
    type Wide = i64;

    const KIND: IntKind = IntKind::Int64;

    ghost KIND = { Int64 };

    fn widen(self) -> i64 {
        self
    }

    fn narrow(n: i64) -> i64 {
        n
    }

    fn column(items: Vec<i64>) -> Values
        ensures { shown result ≡ record { class = class.Int64; cells = map (λ n. whole Int64 n) items.items } }
    {
        Values::I64(items)
    }

    ghost least_is = { refl };

    ghost greatest_is = { refl };

    ghost within = { Prim.search rules };
}

impl Integer for u8 {
    type Wide = i32;

    const KIND: IntKind = IntKind::Uint8;

    ghost KIND = { Uint8 };

    fn widen(self) -> i32 {
        self as i32
    }

    fn narrow(n: i32) -> u8 {
        n.clamp(u8::MIN as i32, u8::MAX as i32) as u8
    }

    fn column(items: Vec<u8>) -> Values
        ensures { shown result ≡ record { class = class.Uint8; cells = map (λ n. whole Uint8 (pos n)) items.items } }
    {
        Values::U8(items)
    }

    ghost least_is = { refl };

    ghost greatest_is = { refl };

    ghost within = { Prim.search rules };
}

impl Integer for u16 {
    type Wide = i64;

    const KIND: IntKind = IntKind::Uint16;

    ghost KIND = { Uint16 };

    fn widen(self) -> i64 {
        self as i64
    }

    fn narrow(n: i64) -> u16 {
        n.clamp(u16::MIN as i64, u16::MAX as i64) as u16
    }

    fn column(items: Vec<u16>) -> Values
        ensures { shown result ≡ record { class = class.Uint16; cells = map (λ n. whole Uint16 (pos n)) items.items } }
    {
        Values::U16(items)
    }

    ghost least_is = { refl };

    ghost greatest_is = { refl };

    ghost within = { Prim.search rules };
}

impl Integer for u32 {
    type Wide = i64;

    const KIND: IntKind = IntKind::Uint32;

    ghost KIND = { Uint32 };

    fn widen(self) -> i64 {
        self as i64
    }

    fn narrow(n: i64) -> u32 {
        n.clamp(u32::MIN as i64, u32::MAX as i64) as u32
    }

    fn column(items: Vec<u32>) -> Values
        ensures { shown result ≡ record { class = class.Uint32; cells = map (λ n. whole Uint32 (pos n)) items.items } }
    {
        Values::U32(items)
    }

    ghost least_is = { refl };

    ghost greatest_is = { refl };

    ghost within = { Prim.search rules };
}

impl Integer for u64 {
    type Wide = u64;

    const KIND: IntKind = IntKind::Uint64;

    ghost KIND = { Uint64 };

    fn widen(self) -> u64 {
        self
    }

    fn narrow(n: u64) -> u64 {
        n
    }

    fn column(items: Vec<u64>) -> Values
        ensures { shown result ≡ record { class = class.Uint64; cells = map (λ n. whole Uint64 (pos n)) items.items } }
    {
        Values::U64(items)
    }

    ghost least_is = { refl };

    ghost greatest_is = { refl };

    ghost within = { Prim.search rules };
}

/// The sum of two numbers, saturated.
pub fn sum<I: Integer>(a: I::Wide, b: I::Wide) -> I
    ensures { I.number result ≡ nearest I.MIN I.MAX (I.Wide.value a +ℤ I.Wide.value b) }
{
    I::narrow(a.plus(b))
}

/// The difference of two numbers, saturated.
pub fn difference<I: Integer>(a: I::Wide, b: I::Wide) -> I
    ensures { I.number result ≡ nearest I.MIN I.MAX (I.Wide.value a -ℤ I.Wide.value b) }
{
    I::narrow(a.minus(b))
}

/// The product of two numbers, saturated.
pub fn product<I: Integer>(a: I::Wide, b: I::Wide) -> I
    ensures { I.number result ≡ nearest I.MIN I.MAX (I.Wide.value a *ℤ I.Wide.value b) }
{
    I::narrow(a.times(b))
}
