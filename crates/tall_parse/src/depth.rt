//! How deep brackets and blocks stand in one another.
ghost use Rattle.std.specs.Prelude.{◌≡◌, ◌≤◌};
ghost use Rattle.std.specs.List.{AllByRecursion};
ghost use Rattle.tall_expr.specs.Gives.{IsSlice};
ghost use Rattle.tall_grammar.specs.Lexemes.{is_text, lexeme_of, lexemes_of};
ghost use Rattle.tall_grammar.specs.Refusals.{closes, limit, open_behind, opens, too_deep};

use crate::places::bytes_of;
use tall_lex::{Token, TokenKind};

/// How many brackets and blocks may be open.
const LIMIT: u32 = 64;

/// Are the bytes these?
fn is(bytes: &[u8], other: &[u8]) -> bool
    ensures { result ≡ is_text bytes.now other.now }
{
    bytes == other
}

/// Does a bracket or a block open with this token?
fn opens(text: &[u8], token: &Token) -> bool
    requires { IsSlice text.now token.now }
    ensures { result ≡ opens (lexeme_of text.now token.now) }
{
    let bytes = bytes_of(text, token);
    match token.kind {
        TokenKind::Sign => is(bytes, b"(") || is(bytes, b"[") || is(bytes, b"{"),
        TokenKind::Word => {
            is(bytes, b"function") || is(bytes, b"if") || is(bytes, b"while") || is(bytes, b"for")
        }
        _ => false,
    }
}

/// Does one close with it?
fn closes(text: &[u8], token: &Token) -> bool
    requires { IsSlice text.now token.now }
    ensures { result ≡ closes (lexeme_of text.now token.now) }
{
    let bytes = bytes_of(text, token);
    match token.kind {
        TokenKind::Sign => is(bytes, b")") || is(bytes, b"]") || is(bytes, b"}"),
        TokenKind::Word => is(bytes, b"end"),
        _ => false,
    }
}

/// How many are open behind a token, where so many are before it.
fn open_behind(text: &[u8], token: &Token, depth: u32) -> u32
    requires slice { IsSlice text.now token.now }
    requires few { depth ≤ limit }
    ensures { result ≡ open_behind depth (lexeme_of text.now token.now) }
{
    if opens(text, token) {
        depth + 1
    } else if closes(text, token) {
        depth.saturating_sub(1)
    } else {
        depth
    }
}

#[tactic(auto, using(crate::proofs::Depths::slice_at, crate::proofs::Depths::one_on, crate::proofs::Depths::too_many, crate::proofs::Depths::all_passed))]
/// The line of the first token behind which more are open than may be.
pub fn too_deep(text: &[u8], tokens: &[Token]) -> Option<u32>
    requires { AllByRecursion (IsSlice text.now) tokens.now }
    ensures { result ≡ too_deep (lexemes_of text.now tokens.now) }
{
    let mut depth = 0;
    for token in tokens {
        depth = open_behind(text, token, depth);
        if depth > LIMIT {
            return Some(token.line);
        }
    }
    None
}
