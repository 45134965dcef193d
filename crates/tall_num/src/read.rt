//! The form of a text: its parts from left to right, as the grammar has them.
ghost use Rattle.std.specs.Prelude.{◌≡◌, ◌≤◌, ◌<◌, ◌^◌, MatchOption, IfSome, IsTrue, Some, None, true, false, option_map, pos, length};
ghost use Rattle.std.specs.List.{list_all};
ghost use Rattle.std.specs.Char.{is_ascii_digit};
ghost use Rattle.tall_int.specs.Quotients.{with_sign};
ghost use Rattle.tall_num.specs.Spelling.{spells, text_spells, decimal_of, decimal, exponent_of, fraction_digits, after_fraction, digits_value};
ghost use Rattle.tall_num.specs.View.{form_spelling, decimal_spelling};

use crate::decimal::{Decimal, Form};
use crate::text::{first, is_digits, is_letter, is_word, short_number, signed, split_digits};

/// The digits of a point with digits that stands first, and what follows them.
fn split_fraction(text: &[u8]) -> (&[u8], &[u8])
    ensures digits { result.0.now ≡ fraction_digits text.now }
    ensures all { IsTrue (list_all is_ascii_digit result.0.now) }
    ensures rest { result.1.now ≡ after_fraction text.now }
{
    match text {
        [b'.', digits @ ..] if first(digits).is_ascii_digit() => split_digits(digits),
        _ => (&[], text),
    }
}

/// The sign and the digits of what follows the mantissa: none, or an exponent.
fn split_exponent(text: &[u8]) -> Option<(bool, &[u8])>
    ensures value { exponent_of text.now ≡ option_map (λ e. with_sign e.0 (digits_value e.1.now)) result }
    ensures all { IfSome result (λ e. IsTrue (list_all is_ascii_digit e.1.now)) }
{
    match text {
        [] => Some((false, &[])),
        [byte, rest @ ..] if is_letter(b'e', *byte) => {
            let (negative, digits) = signed(rest);
            if is_digits(digits) {
                Some((negative, digits))
            } else {
                None
            }
        }
        _ => None,
    }
}

/// The parts of an unsigned decimal.
fn split_decimal(negative: bool, text: &[u8]) -> Option<Decimal<'_>>
    ensures { decimal_of negative text.now ≡ option_map decimal_spelling result }
{
    let (whole, rest) = split_digits(text);
    let (fraction, rest) = split_fraction(rest);
    if whole.is_empty() && fraction.is_empty() {
        return None;
    }
    let (exponent_negative, exponent) = split_exponent(rest)?;
    Some(Decimal {
        negative,
        whole,
        fraction,
        exponent_negative,
        exponent,
    })
}

/// A text that is an optional sign and one digit to eighteen, by its sign and magnitude: the short way of most fields.
fn plain_number(text: &[u8]) -> Option<Form<'_>>
    ensures { IfSome result (λ form. text_spells text.now ≡ Some (form_spelling form)) }
{
    let (negative, digits) = signed(text);
    let size = short_number(digits)?;
    Some(Form::Plain { negative, size })
}

/// The form of a text without blanks at its ends, of any length.
fn general_form(text: &[u8]) -> Option<Form<'_>>
    ensures { text_spells text.now ≡ option_map form_spelling result }
{
    if is_word(text, b"nan") {
        return Some(Form::Nan);
    }
    let (negative, rest) = signed(text);
    if is_word(rest, b"inf") {
        return Some(Form::Infinity { negative });
    }
    match split_decimal(negative, rest) {
        Some(decimal) => Some(Form::General(decimal)),
        None => None,
    }
}

/// The form of a text without blanks at its ends.
pub(crate) fn form_of(text: &[u8]) -> Option<Form<'_>>
    ensures { text_spells text.now ≡ option_map form_spelling result }
{
    match plain_number(text) {
        Some(form) => Some(form),
        None => general_form(text),
    }
}
