//! The tokens of a script.
ghost use Rattle.std.specs.Prelude.{◌≡◌, ◌≤◌, length, IfOk, MatchResult, Ok, Err};
ghost use Rattle.tall_lex.specs.Places.{beginning, past};
ghost use Rattle.tall_lex.specs.Tokens.{tokens_of, tokens_of_bytes, then_bad, InOrder};
ghost use Rattle.tall_lex.specs.Faults.{IsRefusal};

use crate::pieces::{Piece, closes_value, piece_at};
use crate::places::Spot;
use crate::tokens::{LexFault, Token};
use std::alloc::Global;

/// The tokens of a script of at most 1,048,576 bytes, in order: each is the slice of its span. A script that has a bad
/// token is refused at the first one.
///
/// # Errors
/// `BadToken` with the line and the place of the first bad token exactly where the script has one: a number that isn't
/// whole or is above 2^53, a letter directly behind a number, a name of more than 63 bytes, a text that isn't closed on
/// its line, a `'` directly behind a name, a number, a text or a closing bracket, a carriage return that no line feed
/// follows, a line that holds only `%{`, `&&`, `||`, and a byte that begins no token. `Memory` for want of memory.
pub fn lex(alloc: Global, text: &str) -> Result<Vec<Token>, LexFault>
    requires { length text.now ≤ 1048576 }
    ensures tokens { MatchResult result (λ v. tokens_of text.now ≡ Ok v.items) (λ fault. IsRefusal fault (tokens_of text.now)) }
    ensures in_order { IfOk result (λ v. InOrder 0 (length text.now) v.items) }
{
    lex_text(alloc, text.as_bytes())
}

/// The tokens of a script of any bytes, at most 1,048,576: what stands before the first byte that isn't UTF-8 is read as
/// if the script ended there, and that byte is then a bad token.
///
/// # Errors
/// As `lex`.
#[tactic(auto, unfolding(crate::specs::Tokens::tokens_of_bytes))]
pub fn lex_bytes(alloc: Global, bytes: &[u8]) -> Result<Vec<Token>, LexFault>
    requires { length bytes.now ≤ 1048576 }
    ensures tokens { MatchResult result (λ v. tokens_of_bytes bytes.now ≡ Ok v.items) (λ fault. IsRefusal fault (tokens_of_bytes bytes.now)) }
    ensures in_order { IfOk result (λ v. InOrder 0 (length bytes.now) v.items) }
{
    match str::from_utf8(bytes) {
        Ok(_) => lex_text(alloc, bytes),
        Err(error) => Err(refusal_before(alloc, &bytes[..error.valid_up_to()])),
    }
}

/// The refusal of a script that goes on behind this text with a byte that isn't UTF-8.
fn refusal_before(alloc: Global, text: &[u8]) -> LexFault
    requires { length text.now ≤ 1048576 }
    ensures { IsRefusal result (then_bad (past beginning text.now) (tokens_of text.now)) }
{
    match lex_text(alloc, text) {
        Ok(_) => Spot::beginning().past(text).refusal(),
        Err(fault) => fault,
    }
}

/// The tokens of a script's bytes.
pub(crate) fn lex_text(alloc: Global, text: &[u8]) -> Result<Vec<Token>, LexFault>
    requires { length text.now ≤ 1048576 }
    ensures tokens { MatchResult result (λ v. tokens_of text.now ≡ Ok v.items) (λ fault. IsRefusal fault (tokens_of text.now)) }
    ensures in_order { IfOk result (λ v. InOrder 0 (length text.now) v.items) }
{
    let mut tokens = Vec::new(alloc);
    let mut spot = Spot::beginning();
    let mut at = 0;
    // Does a value end directly before?
    let mut closes = false;
    while at < text.len() {
        let rest = &text[at..];
        let len = match piece_at(spot.bare, closes, rest) {
            Piece::Token(kind, len) => {
                let token = Token {
                    kind,
                    line: spot.line,
                    from: at,
                    to: at + len,
                };
                tokens.push(token).map_err(|_| LexFault::Memory)?;
                closes = closes_value(kind, rest[0]);
                len
            }
            Piece::Gap(len) => {
                closes = false;
                len
            }
            Piece::Bad(len) => return Err(spot.past(&rest[..len]).refusal()),
        };
        spot = spot.past(&rest[..len]);
        at += len;
    }
    Ok(tokens)
}
