//! Lists of texts, and names among them.
ghost use Rattle.std.specs.Prelude.{◌≡◌, IfOk, map, option_map, string_bytes};
ghost use Rattle.tall_store.specs.Options.{is_choice};
ghost use Rattle.tall_value.specs.Names.{are_distinct, has_name};
ghost use Rattle.tall_store.specs.Choices.{place_of, places_of};

use std::alloc::{AllocError, Global};
use tall_value::Text;

/// Copies of texts.
pub(crate) fn texts_of(alloc: Global, strings: &[String]) -> Result<Vec<Text>, AllocError>
    ensures { IfOk result (λ texts. texts.items ≡ map (λ s. string_bytes s) strings.now) }
{
    let mut texts = Vec::new(alloc);
    for string in strings {
        texts.push(Text::of(alloc, string.as_str())?)?;
    }
    Ok(texts)
}

/// The same texts once more.
pub(crate) fn copy_texts(alloc: Global, texts: &[Text]) -> Result<Vec<Text>, AllocError>
    ensures { IfOk result (λ copy. copy.items ≡ texts.now) }
{
    let mut copy = Vec::new(alloc);
    for text in texts {
        copy.push(Text::of(alloc, text.as_str())?)?;
    }
    Ok(copy)
}

/// Whether one of the names is this one.
pub(crate) fn has_name(names: &[Text], name: &[u8]) -> bool
    ensures { result ≡ has_name names.now name.now }
{
    names.iter().any(|other| name == other.as_str().as_bytes())
}

/// Whether no name stands twice.
#[tactic(auto, using(crate::proofs::Placing::distinct_more, crate::proofs::Placing::distinct_not, crate::proofs::Placing::distinct_all))]
fn are_distinct(names: &[Text]) -> bool
    ensures { result ≡ are_distinct names.now }
{
    for (i, name) in names.iter().enumerate() {
        if has_name(&names[i + 1..], name.as_str().as_bytes()) {
            return false;
        }
    }
    true
}

/// Whether there is one name at least, and each stands once.
pub(crate) fn is_choice(names: &[Text]) -> bool
    ensures { result ≡ is_choice names.now }
{
    !names.is_empty() && are_distinct(names)
}

/// The place of a name, from 0.
#[tactic(auto, using(crate::proofs::Finding::place_found, crate::proofs::Finding::place_passed, crate::proofs::Finding::place_none))]
fn place_of(names: &[Text], name: &str) -> Option<usize>
    ensures { result ≡ place_of names.now name.now }
{
    for k in 0..names.len() {
        if names[k].as_str() == name {
            return Some(k);
        }
    }
    None
}

/// The places of wanted names, if all are there.
#[tactic(auto, using(crate::proofs::Placing::found_start, crate::proofs::Placing::found_more, crate::proofs::Placing::found_not, crate::proofs::Placing::found_all))]
pub(crate) fn places_of(
    alloc: Global,
    names: &[Text],
    wanted: &[Text],
) -> Result<Option<Vec<usize>>, AllocError>
    ensures { IfOk result (λ places. option_map (λ found. found.items) places ≡ places_of names.now wanted.now) }
{
    let mut places = Vec::new(alloc);
    for name in wanted {
        match place_of(names, name.as_str()) {
            Some(place) => places.push(place)?,
            None => return Ok(None),
        }
    }
    Ok(Some(places))
}
