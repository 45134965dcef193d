//! The values of tokens.
ghost use Rattle.std.specs.Prelude.{◌≡◌, ◌∷◌, IfOk, false};
ghost use Rattle.std.specs.Str.{IsUtf8};
ghost use Rattle.tall_grammar.specs.Lexemes.{number_value, text_value, without_doubles, all_but_last};

use std::alloc::{AllocError, Global};
use std::str::from_utf8_unchecked;
use tall_int::Whole;
use tall_num::{read_field, to_whole};
use tall_value::Text;

/// The value of a number. A number token spells one that is whole.
pub fn number_value(text: &[u8]) -> Whole
    ensures { result ≡ number_value text.now }
{
    match read_field(text) {
        Ok(field) => to_whole(field).unwrap_or(Whole::nan()),
        Err(_) => Whole::nan(),
    }
}

/// The bytes between two quotes, of which each quote inside is written twice, with each of them once.
fn without_doubles(alloc: Global, quote: u8, text: &[u8]) -> Result<Vec<u8>, AllocError>
    ensures { IfOk result (λ v. v.items ≡ without_doubles quote false text.now) }
{
    let mut once = Vec::new(alloc);
    // Does a quote stand directly before that may be the first of two?
    let mut doubled = false;
    for byte in text {
        let is_quote = *byte == quote;
        if !(doubled && is_quote) {
            once.push(*byte)?;
        }
        doubled = is_quote && !doubled;
    }
    Ok(once)
}

/// The bytes without the last one.
#[tactic(auto, using(crate::proofs::Turns::front_taken))]
fn all_but_last(bytes: &[u8]) -> &[u8]
    ensures { result.now ≡ all_but_last bytes.now }
{
    &bytes[..bytes.len().saturating_sub(1)]
}

/// The value of a text token.
pub fn text_value(alloc: Global, text: &[u8]) -> Result<Text, AllocError>
    requires { IsUtf8 (text_value text.now) }
    ensures { IfOk result (λ t. t ≡ text_value text.now) }
{
    match text {
        [quote, rest @ ..] => {
            let once = without_doubles(alloc, *quote, all_but_last(rest))?;
            // The quotes around and left out are ASCII.
            Text::of(alloc, unsafe { from_utf8_unchecked(&once) })
        }
        [] => Text::of(alloc, ""),
    }
}
