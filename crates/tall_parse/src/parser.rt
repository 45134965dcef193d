//! From the bytes of a script to the script.
ghost use Rattle.std.specs.Prelude.{◌≡◌, ◌≤◌, ◌+◌, length, IfSome, None, Some};
ghost use Rattle.std.specs.List.{AllByRecursion};
ghost use Rattle.tall_expr.specs.Gives.{IsSlice};
ghost use Rattle.tall_grammar.specs.Lexemes.{lexemes_of};
ghost use Rattle.tall_grammar.specs.Readers.{input};
ghost use Rattle.tall_grammar.specs.Refusals.{Parses, Reads, Verdict, last_line, longest, too_deep};
ghost use Rattle.tall_grammar.specs.ScriptReader as reader;
ghost use Rattle.tall_grammar.specs.Verdicts.{said};
ghost use Rattle.tall_parse.specs.Parsed.{seen};

use crate::depth::too_deep;
use crate::places::line_before;
use crate::statements::Reading;
use std::alloc::Global;
use tall_expr::Cursor;
use tall_grammar::faults::Fault;
use tall_grammar::{ParseFault, Script};
use tall_lex::{LexFault, Token, lex_bytes};

/// The longest script.
const LONGEST: usize = 1_048_576;

/// More than the expressions and the blocks that stand inside one another where no more than 64 brackets and blocks are open.
const DEPTH: usize = 66;

/// The script that tokens are whose brackets and blocks are not too deep, or what the reader refuses. The turns are more
/// than the tokens, and the depth is above the limit, so neither runs out.
fn read(alloc: Global, text: &[u8], tokens: &[Token]) -> Result<Script, ParseFault>
    requires short { length text.now ≤ longest }
    requires slices { AllByRecursion (IsSlice text.now) tokens.now }
    requires flat { too_deep (lexemes_of text.now tokens.now) ≡ None }
    ensures { IfSome (seen result) (λ answer. said (last_line text.now) (lexemes_of text.now tokens.now) (reader.program (length tokens.now + 2) 66 (input (lexemes_of text.now tokens.now) 1)) ≡ Some answer) }
{
    let reading = Reading {
        alloc,
        turns: tokens.len() + 2,
        depth: DEPTH,
    };
    match reading.script(&mut Cursor::new(text, tokens)) {
        Ok(Ok(script)) => Ok(script),
        Ok(Err(high)) => Err(ParseFault::TooDeep { line: high.line }),
        Err(Fault::Stop(left)) => Err(ParseFault::Syntax {
            line: line_before(text, tokens, left),
        }),
        Err(Fault::OutOfTurns) => unreachable!(),
        Err(Fault::Memory) => Err(ParseFault::Memory),
    }
}

/// The script that tokens are, or their first refusal.
#[tactic(auto, using(crate::proofs::Told::deep_sound, crate::proofs::Told::deep_complete))]
fn parse_tokens(alloc: Global, text: &[u8], tokens: &[Token]) -> Result<Script, ParseFault>
    requires short { length text.now ≤ longest }
    requires slices { AllByRecursion (IsSlice text.now) tokens.now }
    ensures sound { IfSome (seen result) (Reads (last_line text.now) (lexemes_of text.now tokens.now)) }
    ensures complete { (answer : Verdict) → Reads (last_line text.now) (lexemes_of text.now tokens.now) answer → IfSome (seen result) (λ found. found ≡ answer) }
{
    match too_deep(text, tokens) {
        Some(line) => Err(ParseFault::TooDeep { line }),
        None => read(alloc, text, tokens),
    }
}

/// The script that bytes are, or their first refusal (docs/LANGUAGE.md, "Scripts" and "Grammar"). Whatever the definitions
/// have for the bytes is the answer, and they have no other.
///
/// # Errors
/// In this order, each over the whole text: `TooLong` for more than 1,048,576 bytes; `BadToken` at the first bad token;
/// `TooDeep` at the first token behind which more than 64 brackets and blocks are open; `Syntax` at the first token with
/// which no script goes on, or in the last line where the text ends too early; `TooDeep` at the first expression of a
/// height above 64. `Memory` for want of memory.
#[tactic(auto, using(crate::proofs::Told::long_sound, crate::proofs::Told::long_complete, crate::proofs::Told::bad_sound, crate::proofs::Told::bad_complete, crate::proofs::Told::tokens_sound, crate::proofs::Told::tokens_complete, crate::proofs::Spans::are_slices))]
pub fn parse(alloc: Global, text: &[u8]) -> Result<Script, ParseFault>
    ensures sound { IfSome (seen result) (Parses text.now) }
    ensures complete { (answer : Verdict) → Parses text.now answer → IfSome (seen result) (λ found. found ≡ answer) }
{
    if text.len() > LONGEST {
        return Err(ParseFault::TooLong);
    }
    match lex_bytes(alloc, text) {
        Ok(tokens) => parse_tokens(alloc, text, &tokens),
        Err(LexFault::BadToken { line, place }) => Err(ParseFault::BadToken { line, place }),
        Err(LexFault::Memory) => Err(ParseFault::Memory),
    }
}
