//! Kinds of bytes of a script, and the words of the language.
ghost use Rattle.std.specs.Prelude.{◌≡◌, ◌≢◌, ◌≤◌, length, nat_eq, IsTrue};
ghost use Rattle.std.specs.List.{list_any};
ghost use Rattle.std.specs.Cmp.Lexicographic.{pointwise};
ghost use Rattle.tall_lex.specs.Bytes.{first, second, is_name_byte, is_space, starts_blank, starts_stray, is_quote, is_reserved, is_sign, is_sign_pair, is_doubled};

/// The words that are no names.
const RESERVED: [&[u8]; 20] = [
    b"function",
    b"end",
    b"if",
    b"elseif",
    b"else",
    b"while",
    b"for",
    b"break",
    b"continue",
    b"return",
    b"switch",
    b"case",
    b"otherwise",
    b"try",
    b"catch",
    b"global",
    b"persistent",
    b"parfor",
    b"spmd",
    b"classdef",
];

/// The first byte, or 0 where there is none.
pub(crate) fn first(text: &[u8]) -> u8
    ensures { result ≡ first text.now }
{
    match text {
        [byte, ..] => *byte,
        [] => 0,
    }
}

/// The second byte, or 0 where there is none.
pub(crate) fn second(text: &[u8]) -> u8
    ensures value { result ≡ second text.now }
    ensures there { result ≢ 0 → 2 ≤ length text.now }
{
    match text {
        [_, byte, ..] => *byte,
        _ => 0,
    }
}

/// Is the byte a letter, a digit or `_`?
pub(crate) fn is_name_byte(byte: u8) -> bool
    ensures { result ≡ is_name_byte byte }
{
    byte.is_ascii_alphabetic() || byte.is_ascii_digit() || byte == b'_'
}

/// Is the byte a space or a tab?
pub(crate) fn is_space(byte: u8) -> bool
    ensures { result ≡ is_space byte }
{
    byte == b' ' || byte == b'\t'
}

/// Does a blank stand first: a space, a tab, or a carriage return directly before a line feed?
pub(crate) fn starts_blank(text: &[u8]) -> bool
    ensures { result ≡ starts_blank text.now }
{
    is_space(first(text)) || first(text) == b'\r' && second(text) == b'\n'
}

/// Does a carriage return stand first that no line feed follows?
pub(crate) fn starts_stray(text: &[u8]) -> bool
    ensures { result ≡ starts_stray text.now }
{
    first(text) == b'\r' && second(text) != b'\n'
}

pub(crate) fn is_quote(byte: u8) -> bool
    ensures { result ≡ is_quote byte }
{
    byte == b'\'' || byte == b'"'
}

/// Is the word one of these?
fn is_one_of(words: &[&[u8]], word: &[u8]) -> bool
    ensures { result ≡ list_any (λ w. pointwise nat_eq w.now word.now) words.now }
{
    words.iter().any(|w| *w == word)
}

/// Is this a reserved word?
#[tactic(auto, unfolding(crate::specs::Bytes::is_reserved))]
pub(crate) fn is_reserved(word: &[u8]) -> bool
    ensures { result ≡ is_reserved word.now }
{
    is_one_of(&RESERVED, word)
}

/// Is the byte a sign of its own?
pub(crate) fn is_sign(byte: u8) -> bool
    ensures { result ≡ is_sign byte }
{
    b"+-*/<>&|~=()[]{},;:.@".iter().any(|sign| *sign == byte)
}

/// Are the two bytes a sign?
pub(crate) fn is_sign_pair(a: u8, b: u8) -> bool
    ensures value { result ≡ is_sign_pair a b }
    ensures second { IsTrue result → b ≢ 0 }
{
    a == b'.' && (b == b'*' || b == b'/') || b"=~<>".iter().any(|sign| *sign == a) && b == b'='
}

/// Are the two bytes `&&` or `||`, which are no signs?
pub(crate) fn is_doubled(a: u8, b: u8) -> bool
    ensures { result ≡ is_doubled a b }
{
    a == b'&' && b == b'&' || a == b'|' && b == b'|'
}
