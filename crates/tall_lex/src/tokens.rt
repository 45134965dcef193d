//! Tokens and the refusal of a script that has a bad one.

use thiserror::Error;

/// What a token is.
#[derive(Clone, Copy, Debug, PartialEq, Eq)]
pub enum TokenKind {
    /// A letter and letters, digits and `_`, at most 63 bytes, that is no reserved word.
    Name,
    /// Digits with an optional fraction and exponent; whole and at most 2^53.
    Number,
    /// What stands between two quotes, with them. A quote inside is written twice.
    Text,
    /// A reserved word.
    Word,
    /// One of `+ - .* ./ * / == ~= < <= > >= & | ~ = ( ) [ ] { } , ; : . @`.
    Sign,
    /// A line feed.
    LineEnd,
}

/// A token: the bytes `from..to` of the script.
#[derive(Clone, Copy, Debug, PartialEq, Eq)]
pub struct Token {
    pub kind: TokenKind,
    /// The line of its first byte, from 1; of a line feed the line that it ends.
    pub line: u32,
    /// How many bytes stand before it in the script.
    pub from: usize,
    /// How many bytes stand before the one behind it.
    pub to: usize,
}

/// Why a script has no tokens.
#[derive(Debug, Drop, Error)]
pub enum LexFault {
    /// The first bad token: its line, and the place of its first byte in that line, both from 1.
    #[error("line {line}: bad token at {place}")]
    BadToken { line: u32, place: u32 },
    /// Want of memory.
    #[error("out of memory")]
    Memory,
}
