//! The formats and the selection of a datastore.
ghost use Rattle.std.specs.Prelude.{◌≡◌, ◌<◌, ◌^◌, [], IfOk, get_or, length, option_map};
ghost use Rattle.std.specs.Option.{is_some};
ghost use Rattle.csv.specs.Records.{fields_of};
ghost use Rattle.tall_num.specs.Spelling.{spells};
ghost use Rattle.tall_store.specs.Choices.{all_places, chosen_formats, chosen_places, detected, detected_formats};

use crate::format::Format;
use crate::record::field_at;
use crate::texts::places_of;
use crate::values::is_missing;
use csv::ByteRecord;
use std::alloc::{AllocError, Global};
use tall_num::read_field;
use tall_value::Text;

// Whether a field spells a number.
fn is_number(field: &[u8]) -> bool
    ensures { result ≡ is_some (spells field.now) }
{
    match read_field(field) {
        Ok(_) => true,
        Err(_) => false,
    }
}

// The format of a variable by its field in the first data record.
fn detected(missing: &[Text], field: &[u8]) -> Format
    ensures { result ≡ detected missing.now field.now }
{
    if is_missing(missing, field) || is_number(field) {
        Format::Double
    } else {
        Format::Text
    }
}

// The field at a place of a record; empty where it lacks one.
fn field_or_empty(fields: &ByteRecord, place: usize) -> &[u8]
    ensures { result.now ≡ get_or (fields_of fields.now) place [] }
{
    if place < fields.len() {
        field_at(fields, place)
    } else {
        &[]
    }
}

// The formats of so many variables by the first data record.
#[tactic(auto, using(crate::proofs::HeaderNames::range_all))]
fn detected_formats(
    alloc: Global,
    missing: &[Text],
    fields: &ByteRecord,
    n: usize,
) -> Result<Vec<Format>, AllocError>
    ensures { IfOk result (λ formats. formats.items ≡ detected_formats missing.now (fields_of fields.now) n) }
{
    let mut formats = Vec::new(alloc);
    for place in 0..n {
        formats.push(detected(missing, field_or_empty(fields, place)))?;
    }
    Ok(formats)
}

// The places of so many variables.
#[tactic(auto, using(crate::proofs::HeaderNames::places_all))]
fn all_places(alloc: Global, n: usize) -> Result<Vec<usize>, AllocError>
    ensures { IfOk result (λ places. places.items ≡ all_places n) }
{
    let mut places = Vec::new(alloc);
    for place in 0..n {
        places.push(place)?;
    }
    Ok(places)
}

/// The formats of so many variables: those that are given, if they are as many, or the detected ones.
pub(crate) fn chosen_formats(
    alloc: Global,
    missing: &[Text],
    fields: &ByteRecord,
    n: usize,
    given: Option<Vec<Format>>,
) -> Result<Option<Vec<Format>>, AllocError>
    ensures { IfOk result (λ formats. option_map (λ f. f.items) formats ≡ chosen_formats missing.now (fields_of fields.now) n (option_map (λ f. f.items) given)) }
{
    match given {
        Some(formats) => {
            if formats.len() == n {
                return Ok(Some(formats));
            }
            return Ok(None);
        }
        None => return Ok(Some(detected_formats(alloc, missing, fields, n)?)),
    }
}

/// The places of the selected variables, if all are there.
pub(crate) fn chosen_places(
    alloc: Global,
    names: &[Text],
    selected: &Option<Vec<Text>>,
) -> Result<Option<Vec<usize>>, AllocError>
    ensures { IfOk result (λ places. option_map (λ p. p.items) places ≡ chosen_places names.now (option_map (λ s. s.items) selected.now)) }
{
    match selected {
        Some(wanted) => places_of(alloc, names, wanted.as_slice()),
        None => Ok(Some(all_places(alloc, names.len())?)),
    }
}
