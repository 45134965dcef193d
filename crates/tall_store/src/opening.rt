//! Making a datastore of options and the first records of its first file.
ghost use Rattle.std.specs.Prelude.{◌≡◌, ◌<◌, ◌^◌, IfOk, IfSome, Ok, length, map, option_map, string_bytes, true};
ghost use Rattle.std.specs.List.{list_all};
ghost use Rattle.std.specs.Str.{is_utf8};
ghost use Rattle.csv.specs.Records.{fields_of};
ghost use Rattle.tall_store.specs.Options.{is_absent_or, is_accepted, is_choice, is_delimiter, is_nonempty, options_seen};
ghost use Rattle.tall_store.specs.Opening.{Opens, opened_first, opened_variables};
ghost use Rattle.tall_store.specs.Chosen.{chosen_seen};
ghost use Rattle.tall_store.specs.Causes.{IsInside};
ghost use Rattle.tall_store.specs.Names.{variable_names};
ghost use Rattle.tall_store.specs.Properties.{option_or_refuse};

use crate::choices::{chosen_formats, chosen_places};
use crate::faults::StoreFault;
use crate::format::Format;
use crate::names::variable_names;
use crate::options::Options;
use crate::properties::is_size;
use crate::record::field_at;
use crate::store::Datastore;
use crate::texts::{is_choice, texts_of};
use csv::ByteRecord;
use std::alloc::{AllocError, Global};
use std::str::from_utf8;
use tall_cut::ReadSize;
use tall_value::Text;

/// Options with their texts kept as a datastore keeps them.
#[derive(Drop)]
pub(crate) struct Chosen {
    pub(crate) files: Vec<Text>,
    pub(crate) delimiter: u8,
    pub(crate) size: ReadSize,
    pub(crate) missing: Vec<Text>,
    pub(crate) selected: Option<Vec<Text>>,
    pub(crate) formats: Option<Vec<Format>>,
    pub(crate) header: bool,
}

// The texts of a list, if there is one.
fn some_texts(alloc: Global, strings: &Option<Vec<String>>) -> Result<Option<Vec<Text>>, AllocError>
    ensures { IfOk result (λ texts. option_map (λ t. t.items) texts ≡ option_map (λ names. map (λ s. string_bytes s) names.items) strings.now) }
{
    match strings {
        Some(strings) => Ok(Some(texts_of(alloc, strings.as_slice())?)),
        None => Ok(None),
    }
}

/// The options, with their texts kept.
pub(crate) fn keep(alloc: Global, options: Options) -> Result<Chosen, AllocError>
    ensures { IfOk result (λ chosen. chosen_seen chosen ≡ options_seen options) }
{
    Ok(Chosen {
        files: texts_of(alloc, options.files.as_slice())?,
        delimiter: options.delimiter,
        size: options.size,
        missing: texts_of(alloc, options.missing.as_slice())?,
        selected: some_texts(alloc, &options.selected)?,
        formats: options.formats,
        header: options.header,
    })
}

// Whether a byte may stand between two fields.
fn is_delimiter(byte: u8) -> bool
    ensures { result ≡ is_delimiter byte }
{
    byte < 128 && byte != b'"' && byte != b'\r' && byte != b'\n'
}

// Whether the selection is left out or a choice of names.
fn is_selection(selected: &Option<Vec<Text>>) -> bool
    ensures { result ≡ is_absent_or is_choice (option_map (λ s. s.items) selected.now) }
{
    match selected {
        Some(names) => is_choice(names.as_slice()),
        None => true,
    }
}

// Whether the formats are left out, or there is one at least.
fn are_formats(formats: &Option<Vec<Format>>) -> bool
    ensures { result ≡ is_absent_or is_nonempty (option_map (λ f. f.items) formats.now) }
{
    match formats {
        Some(formats) => !formats.is_empty(),
        None => true,
    }
}

/// Whether options are accepted before a file is opened.
pub(crate) fn is_accepted(chosen: &Chosen) -> bool
    ensures { result ≡ is_accepted (chosen_seen chosen.now) }
{
    is_choice(chosen.files.as_slice())
        && is_delimiter(chosen.delimiter)
        && is_size(chosen.size)
        && is_selection(&chosen.selected)
        && are_formats(&chosen.formats)
}

// Whether a field is UTF-8.
#[tactic(auto, using(crate::proofs::Utf8Fields::utf8_test, crate::proofs::Utf8Fields::other_test))]
fn is_text(field: &[u8]) -> bool
    ensures { result ≡ is_utf8 field.now }
{
    match from_utf8(field) {
        Ok(_) => true,
        Err(_) => false,
    }
}

// Whether all fields are UTF-8.
#[tactic(auto, using(crate::proofs::Utf8Fields::utf8_not, crate::proofs::Utf8Fields::utf8_more, crate::proofs::Utf8Fields::utf8_all))]
fn is_header(fields: &ByteRecord) -> bool
    ensures { result ≡ list_all is_utf8 (fields_of fields.now) }
{
    for k in 0..fields.len() {
        if !is_text(field_at(fields, k)) {
            return false;
        }
    }
    true
}

// The datastore by the names of its variables; None where what needs them isn't accepted.
fn open_variables(
    alloc: Global,
    chosen: Chosen,
    first: ByteRecord,
    fields: &ByteRecord,
) -> Result<Option<Datastore>, AllocError>
    requires accepted { is_accepted (chosen_seen chosen) ≡ true }
    requires files { length chosen.files.items < 2 ^ 20 }
    requires few { length (fields_of first) < 2 ^ 20 }
    requires utf8 { chosen.header ≡ true → list_all is_utf8 (fields_of first) ≡ true }
    ensures due { IfOk result (λ found. opened_variables (chosen_seen chosen) (fields_of first) (fields_of fields.now) (variable_names chosen.header (fields_of first)) ≡ option_or_refuse found) }
    ensures files { IfOk result (λ found. IfSome found (λ store. store.files ≡ chosen.files.items)) }
{
    let Chosen {
        files,
        delimiter,
        size,
        missing,
        selected,
        formats,
        header,
    } = chosen;
    let names = variable_names(alloc, header, &first)?;
    let formats = chosen_formats(alloc, missing.as_slice(), fields, names.len(), formats)?;
    let Some(formats) = formats else {
        return Ok(None);
    };
    let Some(selected) = chosen_places(alloc, names.as_slice(), &selected)? else {
        return Ok(None);
    };
    Ok(Some(Datastore {
        files,
        delimiter,
        size,
        missing,
        header,
        names,
        formats,
        selected,
        first,
        alloc,
    }))
}

/// The datastore of accepted options, by the first record of the first file and the fields of its first data record.
pub(crate) fn open_first(
    alloc: Global,
    chosen: Chosen,
    first: ByteRecord,
    fields: &ByteRecord,
) -> Result<Datastore, StoreFault>
    requires accepted { is_accepted (chosen_seen chosen) ≡ true }
    requires files { length chosen.files.items < 2 ^ 20 }
    ensures due { Opens (opened_first (chosen_seen chosen) (fields_of first) (fields_of fields.now)) result }
    ensures inside { IsInside result }
    ensures files { IfOk result (λ store. store.files ≡ chosen.files.items) }
{
    if chosen.header && !is_header(&first) {
        return Err(StoreFault::NoHeader);
    }
    if first.len() >= 1 << 20 {
        return Err(StoreFault::BadArgument);
    }
    match open_variables(alloc, chosen, first, fields) {
        Ok(Some(store)) => Ok(store),
        Ok(None) => Err(StoreFault::BadArgument),
        Err(_) => Err(StoreFault::Memory),
    }
}
