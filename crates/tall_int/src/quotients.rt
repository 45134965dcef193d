//! Rounded quotients and remainders of whole numbers.
ghost use Rattle.std.specs.Prelude.{◌≡◌, ◌≢◌, ◌^◌, ◌≤◌, ◌<◌, ◌/◌, pos, int_rem, unsigned_abs};
ghost use Rattle.std.specs.Int.{div_ceil};
ghost use Rattle.tall_int.specs.Quotients.{differ, quotient, rounded_size};
ghost use Rattle.tall_int.specs.Arithmetic.{remainder};

/// How a quotient is rounded to a whole number (MathWorks, idivide).
#[derive(Clone, Copy, Debug, PartialEq, Eq)]
pub enum Rounding {
    /// Toward zero.
    Fix,
    /// Down.
    Floor,
    /// Up.
    Ceil,
    /// To the nearest whole number; a tie goes to the larger magnitude.
    Round,
}

fn only_one(a: bool, b: bool) -> bool
    ensures { result ≡ differ a b }
{
    if a { !b } else { b }
}

/// p / q cut, by one division of 64 bits where the numbers allow it.
fn cut(p: u128, q: u128) -> u128
    requires { 0 < q }
    ensures { result ≡ p / q }
{
    match (u64::try_from(p), u64::try_from(q)) {
        (Ok(p), Ok(q)) => (p / q) as u128,
        _ => p / q,
    }
}

/// p / q away from 0.
fn cut_up(p: u128, q: u128) -> u128
    requires dividend { p ≤ 2 ^ 64 }
    requires divisor { q ≤ 2 ^ 64 }
    requires nonzero { 0 < q }
    ensures { result ≡ div_ceil p q }
{
    match (u64::try_from(p), u64::try_from(q)) {
        (Ok(p), Ok(q)) => p.div_ceil(q) as u128,
        _ => p.div_ceil(q),
    }
}

/// The magnitude of a quotient, from those of its operands.
fn magnitude(how: Rounding, negative: bool, p: u128, q: u128) -> u128
    requires dividend { p ≤ 2 ^ 64 }
    requires divisor { q ≤ 2 ^ 64 }
    requires nonzero { 0 < q }
    ensures size { result ≡ rounded_size how negative p q }
    ensures small { result ≤ 2 ^ 64 }
{
    match how {
        Rounding::Fix => cut(p, q),
        Rounding::Floor => if negative { cut_up(p, q) } else { cut(p, q) },
        Rounding::Ceil => if negative { cut(p, q) } else { cut_up(p, q) },
        Rounding::Round => cut(2 * p + q, 2 * q),
    }
}

/// p / q, rounded.
pub(crate) fn rounded(how: Rounding, p: i128, q: i128) -> i128
    requires dividend { unsigned_abs p ≤ 2 ^ 64 }
    requires divisor { unsigned_abs q ≤ 2 ^ 64 }
    requires nonzero { q ≢ pos 0 }
    ensures { result ≡ quotient how p q }
{
    let negative = only_one(p < 0, q < 0);
    let size = magnitude(how, negative, p.unsigned_abs(), q.unsigned_abs()) as i128;
    if negative { -size } else { size }
}

/// What is left of p by p / q cut toward 0, by one division of 64 bits where the numbers allow it.
fn cut_rest(p: i128, q: i128) -> i128
    requires dividend { unsigned_abs p ≤ 2 ^ 64 }
    requires nonzero { q ≢ pos 0 }
    ensures { result ≡ int_rem p q }
{
    match (i64::try_from(p), i64::try_from(q)) {
        (Ok(p), Ok(q)) => p.wrapping_rem(q) as i128,
        _ => p % q,
    }
}

/// What is left of p by the floor of p / q; p where q is 0.
pub(crate) fn floor_remainder(p: i128, q: i128) -> i128
    requires dividend { unsigned_abs p ≤ 2 ^ 64 }
    requires divisor { unsigned_abs q ≤ 2 ^ 64 }
    ensures { result ≡ remainder p q }
{
    if q == 0 {
        return p;
    }
    let rest = cut_rest(p, q);
    if rest != 0 && only_one(rest < 0, q < 0) {
        rest + q
    } else {
        rest
    }
}
