//! Values of options and of properties, by the form that is given (docs/LANGUAGE.md, datastores in scripts).
ghost use Rattle.std.specs.Prelude.{◌≡◌, ◌∷◌, [], IfOk, Some, map, option_and_then, option_map, string_bytes};
ghost use Rattle.tall_local.specs.Applications.{text_of};
ghost use Rattle.tall_local.specs.Lists.{all_of};
ghost use Rattle.tall_local.specs.Memory.{scalar_in, text_in};
ghost use Rattle.tall_local.specs.Names.{named};
ghost use Rattle.tall_memory.specs.Values.{ref_seen};
ghost use Rattle.tall_script.specs.StoreArguments.{delimiter_given, delimiter_of, formats, formats_given, size_given, sizes, texts_given, truth_given};
ghost use Rattle.tall_value.specs.Cells.{seen};
ghost use Rattle.tall_sources.specs.Given.{is_text, memory_in, size_in, texts_in, truth_in};

use std::alloc::{AllocError, Global};
use tall_column::Texts;
use tall_cut::ReadSize;
use tall_deferred::ScriptRef;
use tall_memory::MemoryRef;
use tall_store::Format;
use tall_value::{Cell, Content};

fn scalar_in<'r, 'a>(v: &'r MemoryRef<'a>) -> Option<&'r Cell<'a>>
    ensures { option_map (λ c. seen c.now) result ≡ scalar_in (ref_seen v.now) }
{
    match v {
        MemoryRef::Scalar(c) => Some(c),
        MemoryRef::Column(_) => None,
        MemoryRef::Table(_) => None,
        MemoryRef::Texts(_) => None,
    }
}

/// The cell of a scalar in memory.
fn scalar_given<'r, 'a>(v: &'r ScriptRef<'a>) -> Option<&'r Cell<'a>>
    ensures { option_map (λ c. seen c.now) result ≡ scalar_in (memory_in v.now) }
{
    match v {
        ScriptRef::Datastore(_) => None,
        ScriptRef::Table(_) => None,
        ScriptRef::Tall(_) => None,
        ScriptRef::Memory(v) => scalar_in(v),
    }
}

fn texts_in<'r, 'a>(v: &'r MemoryRef<'a>) -> Option<&'r Texts>
    ensures { option_map (λ ts. ts.now) result ≡ texts_in (ref_seen v.now) }
{
    match v {
        MemoryRef::Scalar(_) => None,
        MemoryRef::Column(_) => None,
        MemoryRef::Table(_) => None,
        MemoryRef::Texts(texts) => Some(texts),
    }
}

/// The texts of a list in memory.
fn list_given<'r, 'a>(v: &'r ScriptRef<'a>) -> Option<&'r Texts>
    ensures { option_map (λ ts. ts.now) result ≡ texts_in (memory_in v.now) }
{
    match v {
        ScriptRef::Datastore(_) => None,
        ScriptRef::Table(_) => None,
        ScriptRef::Tall(_) => None,
        ScriptRef::Memory(v) => texts_in(v),
    }
}

fn text_in<'a>(c: &Cell<'a>) -> Option<&'a str>
    ensures { option_map (λ t. t.now) result ≡ text_in (seen c.now) }
{
    match c.content() {
        Content::Text(t) => Some(t),
        Content::Whole(_, _) => None,
        Content::Logical(_) => None,
        Content::Double(_) => None,
    }
}

/// A scalar that is a text.
pub(crate) fn text_given<'a>(v: &ScriptRef<'a>) -> Option<&'a str>
    ensures { option_map (λ t. t.now) result ≡ text_of (scalar_in (memory_in v.now)) }
{
    match scalar_given(v) {
        Some(c) => text_in(c),
        None => None,
    }
}

/// Whether it is this text.
pub(crate) fn is_text(v: &ScriptRef<'_>, name: &str) -> bool
    ensures { result ≡ is_text (text_of (scalar_in (memory_in v.now))) name.now }
{
    match text_given(v) {
        Some(text) => text == name,
        None => false,
    }
}

/// One text, kept in a list.
fn one_text(alloc: Global, text: &str) -> Result<Vec<String>, AllocError>
    ensures { IfOk result (λ kept. map (λ s. string_bytes s) kept.items ≡ text.now ∷ []) }
{
    let mut kept = Vec::with_capacity(alloc, 1)?;
    kept.push(String::from_str(alloc, text)?)?;
    Ok(kept)
}

/// The texts of a list, each kept by itself.
fn each_text(alloc: Global, texts: &Texts) -> Result<Vec<String>, AllocError>
    ensures { IfOk result (λ kept. map (λ s. string_bytes s) kept.items ≡ texts.now) }
{
    let mut kept = Vec::with_capacity(alloc, texts.len())?;
    for place in 0..texts.len() {
        kept.push(String::from_str(alloc, texts.get(place))?)?;
    }
    Ok(kept)
}

/// A text or a list of texts.
pub(crate) fn texts_given(
    alloc: Global,
    v: &ScriptRef<'_>,
) -> Result<Option<Vec<String>>, AllocError>
    ensures { IfOk result (λ found. option_map (λ kept. map (λ s. string_bytes s) kept.items) found ≡ texts_given (memory_in v.now)) }
{
    if let Some(texts) = list_given(v) {
        return Ok(Some(each_text(alloc, texts)?));
    }
    match text_given(v) {
        Some(text) => Ok(Some(one_text(alloc, text)?)),
        None => Ok(None),
    }
}

/// The byte of a text of one byte, and the tab of `\t`.
fn delimiter_of(text: &[u8]) -> Option<u8>
    ensures { result ≡ delimiter_of text.now }
{
    match text {
        [] => None,
        [byte] => Some(*byte),
        [first, second] => {
            if *first == b'\\' && *second == b't' {
                Some(b'\t')
            } else {
                None
            }
        }
        [_, _, _, ..] => None,
    }
}

/// A delimiter.
pub(crate) fn delimiter_given(v: &ScriptRef<'_>) -> Option<u8>
    ensures { result ≡ delimiter_given (memory_in v.now) }
{
    match text_given(v) {
        Some(text) => delimiter_of(text.as_bytes()),
        None => None,
    }
}

fn size_named(text: &str) -> Option<ReadSize>
    ensures { result ≡ named sizes text.now }
{
    if "file" == text {
        Some(ReadSize::File)
    } else {
        None
    }
}

fn size_in(c: &Cell<'_>) -> Option<ReadSize>
    ensures { result ≡ size_in (Some (seen c.now)) }
{
    match c.content() {
        Content::Double(_) => match c.amount() {
            Some(n) if 1 <= n && n < 1 << 31 => Some(ReadSize::Rows(n as u32)),
            _ => None,
        },
        Content::Text(text) => size_named(text),
        Content::Whole(_, _) => None,
        Content::Logical(_) => None,
    }
}

/// A number of records that a block may have, or `'file'`.
pub(crate) fn size_given(v: &ScriptRef<'_>) -> Option<ReadSize>
    ensures { result ≡ size_given (memory_in v.now) }
{
    match scalar_given(v) {
        Some(c) => size_in(c),
        None => None,
    }
}

fn format_named(text: &str) -> Option<Format>
    ensures { result ≡ named formats text.now }
{
    if "%d8" == text {
        Some(Format::Int8)
    } else if "%d16" == text {
        Some(Format::Int16)
    } else if "%d32" == text {
        Some(Format::Int32)
    } else if "%d64" == text {
        Some(Format::Int64)
    } else if "%u8" == text {
        Some(Format::Uint8)
    } else if "%u16" == text {
        Some(Format::Uint16)
    } else if "%u32" == text {
        Some(Format::Uint32)
    } else if "%u64" == text {
        Some(Format::Uint64)
    } else if "%d" == text {
        Some(Format::Int32)
    } else if "%u" == text {
        Some(Format::Uint32)
    } else if "%f" == text {
        Some(Format::Double)
    } else if "%q" == text {
        Some(Format::Text)
    } else {
        None
    }
}

fn formats_in(alloc: Global, texts: &Texts) -> Result<Option<Vec<Format>>, AllocError>
    ensures { IfOk result (λ found. option_map (λ formats. formats.items) found ≡ all_of (named formats) texts.now) }
{
    let mut found = Vec::new(alloc);
    for place in 0..texts.len() {
        match format_named(texts.get(place)) {
            Some(format) => found.push(format)?,
            None => return Ok(None),
        }
    }
    Ok(Some(found))
}

/// A list of formats.
pub(crate) fn formats_given(
    alloc: Global,
    v: &ScriptRef<'_>,
) -> Result<Option<Vec<Format>>, AllocError>
    ensures { IfOk result (λ found. option_map (λ formats. formats.items) found ≡ formats_given (memory_in v.now)) }
{
    match list_given(v) {
        Some(texts) => formats_in(alloc, texts),
        None => Ok(None),
    }
}

fn truth_in(c: &Cell<'_>) -> Option<bool>
    ensures { result ≡ truth_in (Some (seen c.now)) }
{
    match c.content() {
        Content::Logical(b) => Some(b),
        Content::Whole(_, _) => None,
        Content::Double(_) => None,
        Content::Text(_) => None,
    }
}

/// A logical scalar.
pub(crate) fn truth_given(v: &ScriptRef<'_>) -> Option<bool>
    ensures { result ≡ truth_given (memory_in v.now) }
{
    match scalar_given(v) {
        Some(c) => truth_in(c),
        None => None,
    }
}
