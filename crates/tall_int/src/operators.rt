//! The arithmetic of integer classes: exact, rounded, then clamped to the class.
ghost use Rattle.std.specs.Prelude.{◌≡◌, ◌^◌, ◌≤◌, ◌+ℤ◌, ◌-ℤ◌, ◌*ℤ◌, ◌≤ℤ◌, neg_ℤ, pos, unsigned_abs};
ghost use Rattle.tall_int.specs.Numbers.{nearest};
ghost use Rattle.tall_int.specs.Arithmetic.{divided, operation, over_zero, remainder};
ghost use Rattle.tall_int.specs.declared.quotients.Rounding.TheVariants.{Round};

use crate::class::{IntClass, clamp};
use crate::quotients::{Rounding, floor_remainder, rounded};

/// An arithmetic operator of integer classes.
#[derive(Clone, Copy, Debug, PartialEq, Eq)]
pub enum Arith {
    /// `+`
    Add,
    /// `-`
    Sub,
    /// `.*`
    Mul,
    /// `./`, rounded to nearest with ties to the larger magnitude.
    Div,
    /// `idivide` with its rounding.
    Idivide(Rounding),
    /// `mod`
    Modulo,
}

/// What a number over zero gives: the greatest value for a positive one, the least for a negative one, and 0 for 0.
fn divided_by_zero<I: IntClass>(p: i128) -> I
    ensures { I.number result ≡ over_zero I.MIN I.MAX p }
{
    if p < 0 {
        I::from_wide(I::MIN)
    } else if p > 0 {
        I::from_wide(I::MAX)
    } else {
        I::from_wide(0)
    }
}

/// p / q in the class.
fn divide<I: IntClass>(how: Rounding, p: i128, q: i128) -> I
    requires dividend { unsigned_abs p ≤ 2 ^ 64 }
    requires divisor { unsigned_abs q ≤ 2 ^ 64 }
    ensures { I.number result ≡ divided how I.MIN I.MAX p q }
{
    if q == 0 {
        divided_by_zero(p)
    } else {
        clamp(rounded(how, p, q))
    }
}

/// p * q in a class whose numbers have 64 bits with their sign.
fn product_of_words<I: IntClass>(p: i64, q: i64) -> I
    requires { I.MAX ≤ℤ pos 9223372036854775807 }
    ensures { I.number result ≡ nearest I.MIN I.MAX (p *ℤ q) }
{
    clamp(p.saturating_mul(q) as i128)
}

/// p * q in the class. The product of two numbers of 64 bits may not fit 128, and is far above the class there.
fn wide_product<I: IntClass>(p: i128, q: i128) -> I
    ensures { I.number result ≡ nearest I.MIN I.MAX (p *ℤ q) }
{
    clamp(p.saturating_mul(q))
}

/// p * q in the class, in 64 bits where the class and the numbers allow it.
fn product<I: IntClass>(p: i128, q: i128) -> I
    ensures { I.number result ≡ nearest I.MIN I.MAX (p *ℤ q) }
{
    if I::MAX <= i64::MAX as i128 {
        match (i64::try_from(p), i64::try_from(q)) {
            (Ok(p), Ok(q)) => product_of_words(p, q),
            _ => wide_product(p, q),
        }
    } else {
        wide_product(p, q)
    }
}

/// The result of an operator on two whole numbers, which need not be of the class: exact, then rounded, then clamped.
///
/// Numbers are at most 2^64 in magnitude (MathWorks, Integers; idivide). Over zero, by the language's own rule, a
/// positive dividend gives the class's greatest value, a negative one its least, and zero gives 0; `mod(a, 0)` is `a`
/// (MathWorks, mod).
pub fn mixed<I: IntClass>(op: Arith, a: i128, b: i128) -> I
    requires first { unsigned_abs a ≤ 2 ^ 64 }
    requires second { unsigned_abs b ≤ 2 ^ 64 }
    ensures { I.number result ≡ operation op I.MIN I.MAX a b }
{
    match op {
        Arith::Add => clamp(a + b),
        Arith::Sub => clamp(a - b),
        Arith::Mul => product(a, b),
        Arith::Div => divide(Rounding::Round, a, b),
        Arith::Idivide(how) => divide(how, a, b),
        Arith::Modulo => clamp(floor_remainder(a, b)),
    }
}

/// The sum of two values, saturated.
pub fn sat_add<I: IntClass>(a: I, b: I) -> I
    ensures { I.number result ≡ nearest I.MIN I.MAX (I.number a +ℤ I.number b) }
{
    clamp(a.wide() + b.wide())
}

/// The difference of two values, saturated.
pub fn sat_sub<I: IntClass>(a: I, b: I) -> I
    ensures { I.number result ≡ nearest I.MIN I.MAX (I.number a -ℤ I.number b) }
{
    clamp(a.wide() - b.wide())
}

/// The product of two values, saturated.
pub fn sat_mul<I: IntClass>(a: I, b: I) -> I
    ensures { I.number result ≡ nearest I.MIN I.MAX (I.number a *ℤ I.number b) }
{
    product(a.wide(), b.wide())
}

/// The quotient of two values, rounded to nearest with ties to the larger magnitude, saturated.
pub fn div_round<I: IntClass>(a: I, b: I) -> I
    ensures { I.number result ≡ divided Round I.MIN I.MAX (I.number a) (I.number b) }
{
    divide(Rounding::Round, a.wide(), b.wide())
}

/// The quotient of two values, rounded as asked, saturated (MathWorks, idivide).
pub fn idivide<I: IntClass>(a: I, b: I, how: Rounding) -> I
    ensures { I.number result ≡ divided how I.MIN I.MAX (I.number a) (I.number b) }
{
    divide(how, a.wide(), b.wide())
}

/// a minus b times the floor of a over b; a where b is 0 (MathWorks, mod).
pub fn modulo<I: IntClass>(a: I, b: I) -> I
    ensures { I.number result ≡ remainder (I.number a) (I.number b) }
{
    clamp(floor_remainder(a.wide(), b.wide()))
}

/// The value with its sign turned, saturated.
pub fn neg<I: IntClass>(a: I) -> I
    ensures { I.number result ≡ nearest I.MIN I.MAX (neg_ℤ (I.number a)) }
{
    clamp(-a.wide().max(-I::MAX))
}

/// The magnitude of a value, saturated.
pub fn abs<I: IntClass>(a: I) -> I
    ensures { I.number result ≡ nearest I.MIN I.MAX (pos (unsigned_abs (I.number a))) }
{
    clamp(a.wide().abs())
}
