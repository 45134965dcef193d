//! Doubles of the language: NaN, or a whole number.
ghost use Rattle.std.specs.Prelude.{◌≡◌, ◌^◌, ◌≤◌, ◌*ℤ◌, ◌↔◌, IsSome, IfSome, unsigned_abs};
ghost use Rattle.tall_int.specs.Arithmetic.{remainder};
ghost use Rattle.tall_int.specs.Doubles.{exact, shared, whole_abs, whole_add, whole_div, whole_modulo, whole_mul, whole_neg, whole_sub};

use crate::faults::WholeFault;
use crate::quotients::floor_remainder;
use std::marker::Model;

/// The greatest magnitude of a whole double, 2^53: each whole number up to it is a double.
const LIMIT: u64 = 9_007_199_254_740_992;

/// What stands for NaN, 2^61: above each number, so that the derived order puts NaN last.
const NAN: i64 = 1 << 61;

/// A double of the language: NaN, or a whole number of magnitude at most 2^53. NaN equals itself and comes last.
#[derive(Clone, Copy, Debug, PartialEq, Eq, PartialOrd, Ord)]
pub struct Whole {
    number: i64,
}

impl Model for Whole {
    ghost use Rattle.std.specs.Prelude.{Option, ℤ};

    ghost Value = { Option ℤ };

    ghost use Rattle.tall_int.specs.WholeView.{number_of, kept, IsKept, round_trip};

    ghost view = { λ w. number_of w.number };

    ghost invariant = { λ w. IsKept w.number };

    ghost inverse = { λ d. record { number = kept d } };

    ghost inverse_ok = { λ a h. round_trip a h };
}

/// a over b: NaN for 0 over 0, and refused over 0 else and where the quotient isn't whole.
fn quotient(a: i64, b: i64) -> Result<Whole, WholeFault>
    requires { unsigned_abs a ≤ 2 ^ 53 }
    ensures { result ≡ shared a b }
{
    if b == 0 {
        if a == 0 {
            Ok(Whole::nan())
        } else {
            Err(WholeFault::Inexact)
        }
    } else if a % b == 0 {
        Ok(Whole { number: a / b })
    } else {
        Err(WholeFault::NotWhole)
    }
}

/// What is left of a by the floor of a over b; a where b is 0.
fn rest(a: i64, b: i64) -> i64
    requires first { unsigned_abs a ≤ 2 ^ 53 }
    requires second { unsigned_abs b ≤ 2 ^ 53 }
    ensures value { result ≡ remainder a b }
    ensures small { unsigned_abs result ≤ 2 ^ 53 }
{
    let rest = floor_remainder(a as i128, b as i128);
    rest as i64
}

/// a times b.
fn times(a: i64, b: i64) -> Result<Whole, WholeFault>
    ensures { result ≡ exact (a *ℤ b) }
{
    Whole::of_number(a as i128 * b as i128)
}

/// A number, if its magnitude is at most 2^53.
fn exact_number(n: i64) -> Result<Whole, WholeFault>
    ensures { result ≡ exact n }
{
    if n.unsigned_abs() <= LIMIT {
        Ok(Whole { number: n })
    } else {
        Err(WholeFault::Inexact)
    }
}

impl Whole {
    /// NaN.
    pub fn nan() -> Whole
        ensures { result ≡ None }
    {
        Whole { number: NAN }
    }

    /// A number; none exactly where its magnitude is above 2^53.
    pub fn new(n: i64) -> Option<Whole>
        ensures number { IfSome result (λ w. w ≡ Some n) }
        ensures small { IsSome result ↔ (unsigned_abs n ≤ 2 ^ 53) }
    {
        exact_number(n).ok()
    }

    /// A number as a double.
    ///
    /// # Errors
    /// Inexact exactly where its magnitude is above 2^53.
    pub fn of_number(n: i128) -> Result<Whole, WholeFault>
        ensures { result ≡ exact n }
    {
        match i64::try_from(n) {
            Ok(n) => exact_number(n),
            Err(_) => Err(WholeFault::Inexact),
        }
    }

    /// A number of 32 bits, each of which is a double.
    pub fn of_small(n: i32) -> Whole
        ensures { result ≡ Some n }
    {
        Whole { number: n as i64 }
    }

    /// The number; none exactly for NaN.
    pub fn get(self) -> Option<i64>
        ensures number { result ≡ self }
        ensures small { IfSome result (λ n. unsigned_abs n ≤ 2 ^ 53) }
    {
        if self.number == NAN {
            None
        } else {
            Some(self.number)
        }
    }

    /// The sum. NaN where an operand is NaN; Inexact where the magnitude is above 2^53.
    pub fn add(self, b: Whole) -> Result<Whole, WholeFault>
        ensures { result ≡ whole_add self b }
    {
        match (self.get(), b.get()) {
            (Some(x), Some(y)) => exact_number(x + y),
            _ => Ok(Whole::nan()),
        }
    }

    /// The difference. NaN where an operand is NaN; Inexact where the magnitude is above 2^53.
    pub fn sub(self, b: Whole) -> Result<Whole, WholeFault>
        ensures { result ≡ whole_sub self b }
    {
        match (self.get(), b.get()) {
            (Some(x), Some(y)) => exact_number(x - y),
            _ => Ok(Whole::nan()),
        }
    }

    /// The product. NaN where an operand is NaN; Inexact where the magnitude is above 2^53.
    pub fn mul(self, b: Whole) -> Result<Whole, WholeFault>
        ensures { result ≡ whole_mul self b }
    {
        match (self.get(), b.get()) {
            (Some(x), Some(y)) => times(x, y),
            _ => Ok(Whole::nan()),
        }
    }

    /// The quotient. NaN where an operand is NaN and for 0 over 0; Inexact for another number over 0; NotWhole where
    /// the quotient isn't whole.
    pub fn div(self, b: Whole) -> Result<Whole, WholeFault>
        ensures { result ≡ whole_div self b }
    {
        match (self.get(), b.get()) {
            (Some(x), Some(y)) => quotient(x, y),
            _ => Ok(Whole::nan()),
        }
    }

    /// The number minus b times the floor of the number over b; the number itself where b is 0. NaN where an operand
    /// is NaN (MathWorks, mod).
    pub fn modulo(self, b: Whole) -> Whole
        ensures { result ≡ whole_modulo self b }
    {
        match (self.get(), b.get()) {
            (Some(x), Some(y)) => Whole { number: rest(x, y) },
            _ => Whole::nan(),
        }
    }

    /// The number with its sign turned; NaN for NaN.
    pub fn neg(self) -> Whole
        ensures { result ≡ whole_neg self }
    {
        match self.get() {
            Some(x) => Whole { number: -x },
            None => self,
        }
    }

    /// The magnitude; NaN for NaN.
    pub fn abs(self) -> Whole
        ensures { result ≡ whole_abs self }
    {
        match self.get() {
            Some(x) => Whole { number: x.abs() },
            None => self,
        }
    }
}
