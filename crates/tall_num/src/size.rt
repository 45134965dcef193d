//! Magnitudes of decimals, exact up to a limit above every class, and in time linear in their digits.
ghost use Rattle.std.specs.Prelude.{◌≡◌, ◌+◌, ◌*◌, ◌^◌, ◌≤◌, ◌<◌, ◌++◌, ◌==◌, IsTrue, length, slice_index, take, drop};
ghost use Rattle.std.specs.List.{list_all};
ghost use Rattle.std.specs.Char.{is_ascii_digit};
ghost use Rattle.tall_num.specs.Spelling.{digits_onto, digits_value};
ghost use Rattle.tall_num.specs.Values.{decimal_size, is_whole};
ghost use Rattle.tall_num.specs.Sizes.{capped, point_of, size_before, rounds_up, is_zero_from};
ghost use Rattle.tall_num.specs.View.{digits_of, exponent_of};

use crate::decimal::Decimal;

/// Above every number of every class, and above every count of digits: a magnitude or an exponent that reaches it is as
/// good as a larger one.
pub(crate) const LIMIT: u128 = 100_000_000_000_000_000_000;

/// Ten to this power is the limit, so more zeros than these count for nothing.
const LIMIT_ZEROS: u128 = 20;

/// The number that the digits write after those that wrote `start`.
fn read_onto(start: u128, digits: &[u8]) -> u128
    requires small { start ≤ LIMIT }
    requires all { IsTrue (list_all is_ascii_digit digits.now) }
    ensures { result ≡ capped (digits_onto start digits.now) }
{
    let mut number = start;
    for digit in digits {
        number = LIMIT.min(number * 10 + u128::from(*digit - b'0'));
    }
    number
}

/// The number with zeros after it.
fn with_zeros(start: u128, zeros: u128) -> u128
    requires { start ≤ LIMIT }
    ensures { result ≡ capped (start * 10 ^ zeros) }
{
    let mut number = start;
    for _turn in 0..zeros.min(LIMIT_ZEROS) as u8 {
        number = LIMIT.min(number * 10);
    }
    number
}

/// Where the exponent moves the point: how many digits stand before it. None where zeros stand between the point and
/// the first digit.
fn point_of(decimal: &Decimal<'_>) -> Option<u128>
    ensures point { result ≡ point_of decimal.now.exponent_negative (capped (digits_value decimal.now.exponent.now)) (length decimal.now.whole.now) }
    ensures room { length decimal.now.whole.now + length decimal.now.fraction.now + 20 ≤ LIMIT }
{
    // No mantissa is so long that it makes up for an exponent that reaches the limit.
    let digits = decimal.whole.len() as u128 + decimal.fraction.len() as u128;
    prove!(digits + LIMIT_ZEROS <= LIMIT);
    let exponent = read_onto(0, decimal.exponent);
    let whole = decimal.whole.len() as u128;
    if !decimal.exponent_negative {
        Some(whole + exponent)
    } else if whole < exponent {
        None
    } else {
        Some(whole - exponent)
    }
}

/// The digits before a place, all where there are fewer.
#[tactic(auto, using(crate::proofs::Sizes::take_within, crate::proofs::Sizes::all_take_left))]
fn digits_before(digits: &[u8], place: u128) -> &[u8]
    requires { IsTrue (list_all is_ascii_digit digits.now) }
    ensures digits { result.now ≡ take place digits.now }
    ensures all { IsTrue (list_all is_ascii_digit result.now) }
{
    &digits[..place.min(digits.len() as u128) as usize]
}

/// The digits from a place on.
#[tactic(auto, using(crate::proofs::Sizes::drop_within))]
fn digits_from(digits: &[u8], place: u128) -> &[u8]
    ensures { result.now ≡ drop place digits.now }
{
    &digits[place.min(digits.len() as u128) as usize..]
}

/// The number before the point, with zeros after the last digit where the point stands further.
fn size_before(decimal: &Decimal<'_>, point: u128) -> u128
    ensures { result ≡ capped (size_before (digits_of decimal.now) point) }
{
    let whole = decimal.whole.len() as u128;
    let front = read_onto(0, digits_before(decimal.whole, point));
    let number = read_onto(
        front,
        digits_before(decimal.fraction, point.saturating_sub(whole)),
    );
    with_zeros(
        number,
        point.saturating_sub(whole + decimal.fraction.len() as u128),
    )
}

/// The first digit after the point, or 0 where there is none.
fn digit_after(decimal: &Decimal<'_>, point: u128) -> u8
    ensures { result ≡ slice_index (digits_of decimal.now) point }
{
    let whole = decimal.whole.len() as u128;
    let fraction = decimal.fraction.len() as u128;
    if point < whole {
        decimal.whole[point as usize]
    } else if point - whole < fraction {
        decimal.fraction[(point - whole) as usize]
    } else {
        0
    }
}

fn are_zeros(digits: &[u8]) -> bool
    ensures { result ≡ list_all (λ b. b == 48) digits.now }
{
    digits.iter().all(|digit| *digit == b'0')
}

/// Are the digits after the point all zeros?
fn is_zero_from(decimal: &Decimal<'_>, point: u128) -> bool
    ensures { result ≡ is_zero_from (digits_of decimal.now) point }
{
    let whole = decimal.whole.len() as u128;
    are_zeros(digits_from(decimal.whole, point))
        && are_zeros(digits_from(decimal.fraction, point.saturating_sub(whole)))
}

/// The magnitude, rounded: the first digit after the point decides, and a tie goes to the larger magnitude.
pub(crate) fn rounded(decimal: &Decimal<'_>) -> u128
    ensures { result ≡ capped (decimal_size (digits_value (digits_of decimal.now)) (exponent_of decimal.now)) }
{
    match point_of(decimal) {
        None => 0,
        Some(point) => {
            let size = size_before(decimal, point);
            if digit_after(decimal, point) >= b'5' {
                LIMIT.min(size + 1)
            } else {
                size
            }
        }
    }
}

/// Is the fraction zero?
pub(crate) fn is_whole(decimal: &Decimal<'_>) -> bool
    ensures { result ≡ is_whole (digits_value (digits_of decimal.now)) (exponent_of decimal.now) }
{
    match point_of(decimal) {
        None => is_zero_from(decimal, 0),
        Some(point) => is_zero_from(decimal, point),
    }
}
