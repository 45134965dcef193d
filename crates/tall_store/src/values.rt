//! The values of fields.
ghost use Rattle.std.specs.Prelude.{◌≡◌, IfSome, Some, false, refl};
ghost use Rattle.std.specs.List.{list_any};
ghost use Rattle.std.specs.Str.{bytes_eq};
ghost use Rattle.std.specs.Result.{result_map_both};
ghost use Rattle.tall_store.specs.declared.format.Format.{Format};
ghost use Rattle.tall_store.specs.declared.format.Format.TheVariants as format;
ghost use Rattle.tall_store.specs.Formats.{class_of_format, class_of_integers, integer_format};
ghost use Rattle.tall_store.specs.Fields.{double_number, field_value, integer_number, is_missing, number_fault, spelled_double, utf8_text};
ghost use Rattle.tall_num.specs.Spelling.{spells};

use crate::faults::ReadingKind;
use std::marker::PhantomData;
use std::str::from_utf8;
use tall_column::{Integer, Stored};
use tall_int::{IntClass, Whole, WholeFault};
use tall_num::{Field, read_field, to_class, to_whole, trim_blanks};
use tall_value::Text;

/// Whether one of the spellings is these bytes.
fn is_spelling(missing: &[Text], bytes: &[u8]) -> bool
    ensures { result ≡ list_any (λ spelling. bytes_eq spelling bytes.now) missing.now }
{
    missing
        .iter()
        .any(|spelling| spelling.as_str().as_bytes() == bytes)
}

/// Whether a field is missing in a numeric format.
pub(crate) fn is_missing(missing: &[Text], bytes: &[u8]) -> bool
    ensures { result ≡ is_missing missing.now bytes.now }
{
    let text = trim_blanks(bytes);
    text.is_empty() || is_spelling(missing, text)
}

/// The number field, where it can't be missing: there is no spelling for it, and it spells a number. Most fields are such.
fn read_unless_missing<'a>(missing: &[Text], bytes: &'a [u8]) -> Option<Field<'a>>
    ensures there { IfSome result (λ field. is_missing missing.now bytes.now ≡ false) }
    ensures spells { IfSome result (λ field. spells bytes.now ≡ Some field) }
{
    if !missing.is_empty() {
        return None;
    }
    match read_field(bytes) {
        Ok(field) => Some(field),
        Err(_) => None,
    }
}

/// The number of a field in an integer class.
fn read_integer<I: IntClass>(missing: &[Text], bytes: &[u8]) -> Result<I, ReadingKind>
    ensures { result_map_both (λ n. I.number n) (λ e. e) result ≡ integer_number I.MIN I.MAX missing.now bytes.now }
{
    if let Some(field) = read_unless_missing(missing, bytes) {
        return Ok(to_class(field));
    }
    if is_missing(missing, bytes) {
        return Ok(I::from_wide(0));
    }
    match read_field(bytes) {
        Ok(field) => Ok(to_class(field)),
        Err(_) => Err(ReadingKind::BadField),
    }
}

/// What is wrong with a number that is no double of the language.
fn number_fault(fault: WholeFault) -> ReadingKind
    ensures { result ≡ number_fault fault }
{
    match fault {
        WholeFault::NotWhole => ReadingKind::NotWhole,
        WholeFault::Inexact => ReadingKind::Inexact,
    }
}

/// A number field as a double.
fn double_of(field: Field<'_>) -> Result<Whole, ReadingKind>
    ensures { result ≡ spelled_double (Some field.entry) }
{
    match to_whole(field) {
        Ok(number) => Ok(number),
        Err(fault) => Err(number_fault(fault)),
    }
}

/// The number of a field as a double.
fn read_double(missing: &[Text], bytes: &[u8]) -> Result<Whole, ReadingKind>
    ensures { result ≡ double_number missing.now bytes.now }
{
    if let Some(field) = read_unless_missing(missing, bytes) {
        return double_of(field);
    }
    if is_missing(missing, bytes) {
        return Ok(Whole::nan());
    }
    match read_field(bytes) {
        Ok(field) => double_of(field),
        Err(_) => Err(ReadingKind::BadField),
    }
}

/// A field as a text.
#[tactic(auto, using(crate::proofs::Utf8Fields::text_of_utf8, crate::proofs::Utf8Fields::text_of_other))]
pub(crate) fn read_text(bytes: &[u8]) -> Result<&str, ReadingKind>
    ensures { result_map_both (λ text. text.now) (λ e. e) result ≡ utf8_text bytes.now }
{
    match from_utf8(bytes) {
        Ok(text) => Ok(text),
        Err(_) => Err(ReadingKind::BadText),
    }
}

/// How the fields of a format are read, of all formats but `%q`.
pub(crate) trait FieldReader {
    type Out: Stored;

    ghost format: { Format };

    /// The value of a field.
    fn read(missing: &[Text], bytes: &[u8]) -> Result<Self::Out, ReadingKind>
        ensures { result_map_both Self.Out.shown (λ e. e) result ≡ field_value format missing.now bytes.now };

    ghost in_class: { Self.Out.class ≡ class_of_format format };
}

/// The integer formats.
pub(crate) struct IntegerFields<I> {
    class: PhantomData<I>,
}

impl<I: Integer> FieldReader for IntegerFields<I> {
    type Out = I;

    ghost format = { integer_format I.KIND };

    fn read(missing: &[Text], bytes: &[u8]) -> Result<I, ReadingKind> {
        read_integer(missing, bytes)
    }

    ghost in_class = { class_of_integers I.KIND };
}

/// `%f`
pub(crate) struct DoubleFields;

impl FieldReader for DoubleFields {
    type Out = Whole;

    ghost format = { format.Double };

    fn read(missing: &[Text], bytes: &[u8]) -> Result<Whole, ReadingKind> {
        read_double(missing, bytes)
    }

    ghost in_class = { refl };
}
