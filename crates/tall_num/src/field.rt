//! Number fields and their values.
ghost use Rattle.std.specs.Prelude.{◌≡◌, ◌≤◌, MatchResult, Some, None};
ghost use Rattle.tall_int.specs.Doubles.{exact};
ghost use Rattle.tall_int.specs.Quotients.{with_sign};
ghost use Rattle.tall_num.specs.Spelling.{spells};
ghost use Rattle.tall_num.specs.Values.{class_value, whole_value};
ghost use Rattle.tall_num.specs.View.{decimal_spelling};

use crate::decimal::{Decimal, Form};
use crate::read::form_of;
use crate::size::{LIMIT, is_whole, rounded};
use crate::text::trim_blanks;
use std::marker::Model;
use tall_int::{IntClass, Whole, WholeFault, clamp};

/// The bytes spell no number.
#[derive(Clone, Copy, Debug, PartialEq, Eq)]
pub struct NotNumber;

/// A number field, which a contract sees as what its bytes spell.
#[derive(Drop)]
pub struct Field<'a> {
    form: Form<'a>,
}

impl<'a> Model for Field<'a> {
    ghost use Rattle.tall_num.specs.Spelling.{Spelling};

    ghost Value = { Spelling };

    ghost use Rattle.tall_num.specs.View.{form_spelling};

    ghost view = { λ f. form_spelling f.form };
}

/// Reads a number field, exactly. The bytes are optional blanks (spaces and tabs), then one of an optional sign, a
/// mantissa and an optional exponent; an optional sign and `Inf`; `NaN`; then optional blanks. A mantissa is digits,
/// digits with a point and digits, or a point with digits; an exponent is `e` or `E`, an optional sign and digits;
/// `Inf` and `NaN` are in any case (docs/LANGUAGE.md, number fields).
///
/// # Errors
/// `NotNumber` exactly where the bytes are none of these.
pub fn read_field(bytes: &[u8]) -> Result<Field<'_>, NotNumber>
    ensures { MatchResult result (λ field. spells bytes.now ≡ Some field) (λ _. spells bytes.now ≡ None) }
{
    match form_of(trim_blanks(bytes)) {
        Some(form) => Ok(Field { form }),
        None => Err(NotNumber),
    }
}

/// The number of a sign and a magnitude.
fn signed_number(negative: bool, size: u128) -> i128
    requires { size ≤ LIMIT }
    ensures { result ≡ with_sign negative size }
{
    let number = size as i128;
    if negative { -number } else { number }
}

/// The same of a plain number.
fn signed_plain(negative: bool, size: u64) -> i128
    ensures { result ≡ with_sign negative size }
{
    signed_number(negative, u128::from(size))
}

/// The field's value in the class: rounded to the nearest whole number, ties to the larger magnitude, and then the
/// nearest number of the class (MathWorks, Integers). NaN gives 0, an infinity the end of its side.
pub fn to_class<I: IntClass>(field: Field<'_>) -> I
    ensures { I.number result ≡ class_value I.MIN I.MAX field.entry }
{
    match field.form {
        Form::Nan => I::from_wide(0),
        Form::Infinity { negative } => I::from_wide(if negative { I::MIN } else { I::MAX }),
        Form::Plain { negative, size } => clamp(signed_plain(negative, size)),
        Form::General(decimal) => { clamp(signed_number(decimal.negative, rounded(&decimal))) }
    }
}

/// The double of a sign and a magnitude.
fn exact_size(negative: bool, size: u128) -> Result<Whole, WholeFault>
    requires { size ≤ LIMIT }
    ensures { result ≡ exact (with_sign negative size) }
{
    Whole::of_number(signed_number(negative, size))
}

/// The same of a plain number.
fn exact_plain(negative: bool, size: u64) -> Result<Whole, WholeFault>
    ensures { result ≡ exact (with_sign negative size) }
{
    Whole::of_number(signed_plain(negative, size))
}

/// The value of a decimal as a double.
fn exact_decimal(decimal: &Decimal<'_>) -> Result<Whole, WholeFault>
    ensures { result ≡ whole_value (decimal_spelling decimal.now) }
{
    if is_whole(decimal) {
        exact_size(decimal.negative, rounded(decimal))
    } else {
        Err(WholeFault::NotWhole)
    }
}

/// The field's value as a double of the language; NaN is NaN.
///
/// # Errors
/// `NotWhole` exactly where the fraction isn't zero, else `Inexact` exactly where the magnitude is above 2^53 or
/// infinite.
pub fn to_whole(field: Field<'_>) -> Result<Whole, WholeFault>
    ensures { result ≡ whole_value field.entry }
{
    match field.form {
        Form::Nan => Ok(Whole::nan()),
        Form::Infinity { .. } => Err(WholeFault::Inexact),
        Form::Plain { negative, size } => exact_plain(negative, size),
        Form::General(decimal) => exact_decimal(&decimal),
    }
}
