//! The options of a call of `tabularTextDatastore` (docs/LANGUAGE.md, datastores in scripts).
ghost use Rattle.std.specs.Prelude.{◌≡◌, [], IfOk, map, option_map, string_bytes, true};
ghost use Rattle.std.specs.List.{list_all};
ghost use Rattle.tall_cut.specs.declared.cutter.ReadSize.TheVariants as size;
ghost use Rattle.tall_local.specs.Applications.{text_of};
ghost use Rattle.tall_local.specs.Memory.{scalar_in};
ghost use Rattle.tall_local.specs.Names.{named};
ghost use Rattle.tall_script.specs.StoreArguments.{delimiter_given, formats_given, option_name, option_or, optional, options, size_given, texts_given, truth_given};
ghost use Rattle.tall_store.specs.Options.{options_seen};
ghost use Rattle.tall_store.specs.declared.options.OptionName.TheVariants as option;
ghost use Rattle.tall_sources.specs.Given.{are_pairs, is_in_memory, is_new_option, memory_in, options_by, options_in_memory, options_lent, options_of_pairs, value_behind, value_of};

use crate::values::{
    delimiter_given, formats_given, is_text, size_given, text_given, texts_given, truth_given,
};
use std::alloc::{AllocError, Global};
use tall_cut::ReadSize;
use tall_deferred::ScriptRef;
use tall_store::{Format, OptionName, Options};

/// How many records a block has where no ReadSize is given.
const DEFAULT_ROWS: u32 = 20000;

fn is_in_memory(v: &ScriptRef<'_>) -> bool
    ensures { result ≡ is_in_memory v.now }
{
    match v {
        ScriptRef::Datastore(_) => false,
        ScriptRef::Table(_) => false,
        ScriptRef::Tall(_) => false,
        ScriptRef::Memory(_) => true,
    }
}

/// Whether all arguments are values in memory.
fn are_in_memory(args: &[ScriptRef<'_>]) -> bool
    ensures { result ≡ list_all is_in_memory args.now }
{
    args.iter().all(|v| is_in_memory(v))
}

fn option_named(name: &str) -> Option<OptionName>
    ensures { result ≡ named options name.now }
{
    if "Delimiter" == name {
        Some(OptionName::Delimiter)
    } else if "ReadSize" == name {
        Some(OptionName::ReadSize)
    } else if "TreatAsMissing" == name {
        Some(OptionName::TreatAsMissing)
    } else if "SelectedVariableNames" == name {
        Some(OptionName::SelectedVariableNames)
    } else if "TextscanFormats" == name {
        Some(OptionName::TextscanFormats)
    } else if "ReadVariableNames" == name {
        Some(OptionName::ReadVariableNames)
    } else {
        None
    }
}

/// The value behind the first of a name, among pairs of a name and a value.
#[tactic(auto, using(crate::proofs::PairLoops::value_passed, crate::proofs::PairLoops::value_found))]
fn value_behind<'r, 'a>(pairs: &'r [ScriptRef<'a>], name: &str) -> Option<&'r ScriptRef<'a>>
    ensures { option_map (λ v. memory_in v.now) result ≡ value_behind (map memory_in pairs.now) name.now }
{
    let mut at = 0;
    while at + 1 < pairs.len() {
        if is_text(&pairs[at], name) {
            return Some(&pairs[at + 1]);
        }
        at += 2;
    }
    None
}

/// Whether a name is an option's, and does not stand again among the pairs behind it.
fn is_new_option(name: &ScriptRef<'_>, rest: &[ScriptRef<'_>]) -> bool
    ensures { result ≡ is_new_option (text_of (scalar_in (memory_in name.now))) (map memory_in rest.now) }
{
    match text_given(name) {
        Some(name) => option_named(name).is_some() && value_behind(rest, name).is_none(),
        None => false,
    }
}

/// Whether these are pairs of a name and a value, and each name is an option's and stands once.
#[tactic(auto, using(crate::proofs::PairLoops::pairs_end))]
fn are_pairs(pairs: &[ScriptRef<'_>]) -> bool
    ensures { result ≡ are_pairs (map memory_in pairs.now) }
{
    let mut at = 0;
    while at + 1 < pairs.len() {
        if !is_new_option(&pairs[at], &pairs[at + 2..]) {
            return false;
        }
        at += 2;
    }
    at == pairs.len()
}

fn name_of(option: OptionName) -> &'static str
    ensures { result.now ≡ option_name option }
{
    match option {
        OptionName::Delimiter => "Delimiter",
        OptionName::ReadSize => "ReadSize",
        OptionName::TreatAsMissing => "TreatAsMissing",
        OptionName::SelectedVariableNames => "SelectedVariableNames",
        OptionName::TextscanFormats => "TextscanFormats",
        OptionName::ReadVariableNames => "ReadVariableNames",
    }
}

/// The value of an option.
#[tactic(auto, unfolding(crate::specs::Given::value_of))]
fn value_of<'r, 'a>(pairs: &'r [ScriptRef<'a>], option: OptionName) -> Option<&'r ScriptRef<'a>>
    ensures { option_map (λ v. memory_in v.now) result ≡ value_of (map memory_in pairs.now) option }
{
    value_behind(pairs, name_of(option))
}

fn delimiter(pairs: &[ScriptRef<'_>]) -> Option<u8>
    ensures { result ≡ option_or delimiter_given 44 (value_of (map memory_in pairs.now) option.Delimiter) }
{
    match value_of(pairs, OptionName::Delimiter) {
        Some(v) => delimiter_given(v),
        None => Some(b','),
    }
}

fn size(pairs: &[ScriptRef<'_>]) -> Option<ReadSize>
    ensures { result ≡ option_or size_given (size.Rows 20000) (value_of (map memory_in pairs.now) option.ReadSize) }
{
    match value_of(pairs, OptionName::ReadSize) {
        Some(v) => size_given(v),
        None => Some(ReadSize::Rows(DEFAULT_ROWS)),
    }
}

fn missing(alloc: Global, pairs: &[ScriptRef<'_>]) -> Result<Option<Vec<String>>, AllocError>
    ensures { IfOk result (λ found. option_map (λ texts. map (λ s. string_bytes s) texts.items) found ≡ option_or texts_given [] (value_of (map memory_in pairs.now) option.TreatAsMissing)) }
{
    match value_of(pairs, OptionName::TreatAsMissing) {
        Some(v) => texts_given(alloc, v),
        None => Ok(Some(Vec::new(alloc))),
    }
}

fn selected(
    alloc: Global,
    pairs: &[ScriptRef<'_>],
) -> Result<Option<Option<Vec<String>>>, AllocError>
    ensures { IfOk result (λ found. option_map (λ names. option_map (λ texts. map (λ s. string_bytes s) texts.items) names) found ≡ optional texts_given (value_of (map memory_in pairs.now) option.SelectedVariableNames)) }
{
    match value_of(pairs, OptionName::SelectedVariableNames) {
        Some(v) => match texts_given(alloc, v)? {
            Some(names) => Ok(Some(Some(names))),
            None => Ok(None),
        },
        None => Ok(Some(None)),
    }
}

fn formats(
    alloc: Global,
    pairs: &[ScriptRef<'_>],
) -> Result<Option<Option<Vec<Format>>>, AllocError>
    ensures { IfOk result (λ found. option_map (λ kinds. option_map (λ formats. formats.items) kinds) found ≡ optional formats_given (value_of (map memory_in pairs.now) option.TextscanFormats)) }
{
    match value_of(pairs, OptionName::TextscanFormats) {
        Some(v) => match formats_given(alloc, v)? {
            Some(kinds) => Ok(Some(Some(kinds))),
            None => Ok(None),
        },
        None => Ok(Some(None)),
    }
}

fn header(pairs: &[ScriptRef<'_>]) -> Option<bool>
    ensures { result ≡ option_or truth_given true (value_of (map memory_in pairs.now) option.ReadVariableNames) }
{
    match value_of(pairs, OptionName::ReadVariableNames) {
        Some(v) => truth_given(v),
        None => Some(true),
    }
}

/// The options by the files and by pairs of a name and a value, where each value has its option's form.
fn options_by(
    alloc: Global,
    files: &ScriptRef<'_>,
    pairs: &[ScriptRef<'_>],
) -> Result<Option<Options>, AllocError>
    ensures { IfOk result (λ found. option_map options_seen found ≡ options_by (memory_in files.now) (value_of (map memory_in pairs.now))) }
{
    let Some(files) = texts_given(alloc, files)? else {
        return Ok(None);
    };
    let Some(delimiter) = delimiter(pairs) else {
        return Ok(None);
    };
    let Some(size) = size(pairs) else {
        return Ok(None);
    };
    let Some(missing) = missing(alloc, pairs)? else {
        return Ok(None);
    };
    let Some(selected) = selected(alloc, pairs)? else {
        return Ok(None);
    };
    let Some(formats) = formats(alloc, pairs)? else {
        return Ok(None);
    };
    let Some(header) = header(pairs) else {
        return Ok(None);
    };
    Ok(Some(Options {
        files,
        delimiter,
        size,
        missing,
        selected,
        formats,
        header,
    }))
}

/// The options by the files and by pairs, each with an option's name that stands once.
fn options_of_pairs(
    alloc: Global,
    files: &ScriptRef<'_>,
    pairs: &[ScriptRef<'_>],
) -> Result<Option<Options>, AllocError>
    ensures { IfOk result (λ found. option_map options_seen found ≡ options_of_pairs (memory_in files.now) (map memory_in pairs.now)) }
{
    if !are_pairs(pairs) {
        return Ok(None);
    }
    options_by(alloc, files, pairs)
}

/// The options of values in memory.
fn options_in_memory(alloc: Global, args: &[ScriptRef<'_>]) -> Result<Option<Options>, AllocError>
    ensures { IfOk result (λ found. option_map options_seen found ≡ options_in_memory (map memory_in args.now)) }
{
    match args {
        [] => Ok(None),
        [files, pairs @ ..] => options_of_pairs(alloc, files, pairs),
    }
}

/// The options of a call by its arguments: the files, and then pairs of a name and a value. None exactly where an argument is
/// no value in memory, the files are neither a text nor a list, a name is no option's or stands twice, a name has no value, or
/// a value has another form than its option takes. What is in range, `Datastore::open` tells.
#[tactic(auto, using(crate::proofs::OptionLemmas::not_in_memory))]
pub fn options_given(alloc: Global, args: &[ScriptRef<'_>]) -> Result<Option<Options>, AllocError>
    ensures { IfOk result (λ found. option_map options_seen found ≡ options_lent args.now) }
{
    if !are_in_memory(args) {
        return Ok(None);
    }
    options_in_memory(alloc, args)
}
