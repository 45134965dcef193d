//! What begins at a byte of a script.
ghost use Rattle.std.specs.Prelude.{◌≡◌, ◌+◌, ◌<◌, ◌≤◌, length, drop, false, IsTrue, IfSome, MatchResult};
ghost use Rattle.std.specs.List.{prefix_len};
ghost use Rattle.std.specs.Char.{is_ascii_alphabetic, is_ascii_digit};
ghost use Rattle.tall_lex.specs.Bytes.{first, is_name_byte};
ghost use Rattle.tall_lex.specs.Pieces.{name_piece, digits_len, fraction_len, exponent_mark_len, exponent_len, number_len, number_piece, text_len, before_return, text_piece, line_rest, is_blank_line, is_block_opener, comment_piece, starts_dots, joined_piece, sign_piece, piece_at, closes_value};
ghost use Rattle.tall_lex.specs.Fits.{FitsIn};

use crate::bytes::{
    first, is_doubled, is_name_byte, is_quote, is_reserved, is_sign, is_sign_pair, second,
    starts_blank, starts_stray,
};
use crate::numbers::is_whole_number;
use crate::tokens::TokenKind;

/// What begins at a byte.
#[derive(Clone, Copy)]
pub(crate) enum Piece {
    /// A token of so many bytes.
    Token(TokenKind, usize),
    /// So many bytes that are passed over: a blank, a comment or a joined line.
    Gap(usize),
    /// A bad token, so many bytes further on.
    Bad(usize),
}

/// The longest name a script may have.
const LONGEST_NAME: usize = 63;

/// How many bytes of a name stand first.
fn name_len(text: &[u8]) -> usize
    ensures value { result ≡ prefix_len is_name_byte text.now }
    ensures within { result ≤ length text.now }
{
    text.iter().take_while(|b| is_name_byte(**b)).count()
}

/// A name or a word.
#[tactic(auto, unfolding(crate::specs::Pieces::name_piece))]
fn name_piece(text: &[u8]) -> Piece
    requires { IsTrue (is_ascii_alphabetic (first text.now)) }
    ensures value { result ≡ name_piece text.now }
    ensures fits { FitsIn (length text.now) result }
{
    let len = name_len(text);
    if len > LONGEST_NAME {
        Piece::Bad(0)
    } else if is_reserved(&text[..len]) {
        Piece::Token(TokenKind::Word, len)
    } else {
        Piece::Token(TokenKind::Name, len)
    }
}

/// How many digits stand first.
fn digits_len(text: &[u8]) -> usize
    ensures value { result ≡ digits_len text.now }
    ensures within { result ≤ length text.now }
    ensures some { IsTrue (is_ascii_digit (first text.now)) → 0 < result }
{
    text.iter().take_while(|b| b.is_ascii_digit()).count()
}

/// The length of a point and digits that stand first, or 0.
#[tactic(auto, unfolding(crate::specs::Pieces::fraction_len))]
fn fraction_len(text: &[u8]) -> usize
    ensures value { result ≡ fraction_len text.now }
    ensures within { result ≤ length text.now }
{
    match text {
        [b'.', digits @ ..] if first(digits).is_ascii_digit() => 1 + digits_len(digits),
        _ => 0,
    }
}

/// The length of an e or E that stands first, with a sign behind it if there is one.
fn exponent_mark_len(text: &[u8]) -> usize
    ensures value { result ≡ exponent_mark_len text.now }
    ensures within { result ≤ length text.now }
{
    match text {
        [b'e' | b'E', b'+' | b'-', ..] => 2,
        [b'e' | b'E', ..] => 1,
        _ => 0,
    }
}

/// The length of an exponent that stands first, or 0.
#[tactic(auto, unfolding(crate::specs::Pieces::exponent_len))]
fn exponent_len(text: &[u8]) -> usize
    ensures value { result ≡ exponent_len text.now }
    ensures within { result ≤ length text.now }
{
    let mark = exponent_mark_len(text);
    let digits = digits_len(&text[mark..]);
    if mark == 0 || digits == 0 {
        0
    } else {
        mark + digits
    }
}

/// The length of the number that stands first.
#[tactic(auto, unfolding(crate::specs::Pieces::number_len))]
fn number_len(text: &[u8]) -> usize
    ensures value { result ≡ number_len text.now }
    ensures within { result ≤ length text.now }
    ensures some { IsTrue (is_ascii_digit (first text.now)) → 0 < result }
{
    let whole = digits_len(text);
    let mantissa = whole + fraction_len(&text[whole..]);
    mantissa + exponent_len(&text[mantissa..])
}

/// A number.
#[tactic(auto, unfolding(crate::specs::Pieces::number_piece))]
fn number_piece(text: &[u8]) -> Piece
    requires { IsTrue (is_ascii_digit (first text.now)) }
    ensures value { result ≡ number_piece text.now }
    ensures fits { FitsIn (length text.now) result }
{
    let len = number_len(text);
    if !is_whole_number(&text[..len]) {
        Piece::Bad(0)
    } else if first(&text[len..]).is_ascii_alphabetic() {
        Piece::Bad(len)
    } else {
        Piece::Token(TokenKind::Number, len)
    }
}

/// The length of a text whose first quote stands before `rest`, with both quotes, if it is closed on its line.
fn text_len(quote: u8, rest: &[u8]) -> Option<usize>
    ensures value { result ≡ text_len quote 1 false rest.now }
    ensures within { IfSome result (λ n. (0 < n) × (n ≤ length rest.now + 1)) }
{
    // A quote stands directly before, which closes the text unless another follows.
    let mut pending = false;
    for (i, byte) in rest.iter().enumerate() {
        if pending {
            if *byte != quote {
                return Some(i + 1);
            }
            pending = false;
        } else if *byte == b'\n' {
            return None;
        } else {
            pending = *byte == quote;
        }
    }
    if pending { Some(rest.len() + 1) } else { None }
}

/// How many bytes stand before the first carriage return.
fn before_return(text: &[u8]) -> usize
    ensures value { result ≡ before_return text.now }
    ensures within { result ≤ length text.now }
{
    text.iter().take_while(|b| **b != b'\r').count()
}

/// A text. `closes` says that a value ends directly before.
#[tactic(auto, unfolding(crate::specs::Pieces::text_piece))]
fn text_piece(closes: bool, text: &[u8]) -> Piece
    requires { 0 < length text.now }
    ensures value { result ≡ text_piece closes text.now }
    ensures fits { FitsIn (length text.now) result }
{
    let quote = first(text);
    if closes && quote == b'\'' {
        return Piece::Bad(0);
    }
    let Some(len) = text_len(quote, &text[1..]) else {
        return Piece::Bad(0);
    };
    let clean = before_return(&text[..len]);
    if clean < len {
        Piece::Bad(clean)
    } else {
        Piece::Token(TokenKind::Text, len)
    }
}

/// Where the line ends that has the byte at `from`, or where the first stray carriage return from there on stands.
fn line_rest(text: &[u8], from: usize) -> Result<usize, usize>
    requires { from ≤ length text.now }
    ensures value { result ≡ line_rest from (drop from text.now) }
    ensures within { MatchResult result (λ n. (from ≤ n) × (n ≤ length text.now)) (λ n. n ≤ length text.now) }
{
    for i in from..text.len() {
        if text[i] == b'\n' {
            return Ok(i);
        }
        if starts_stray(&text[i..]) {
            return Err(i);
        }
    }
    Ok(text.len())
}

/// Do only blanks stand before the line's end?
fn is_blank_line(text: &[u8]) -> bool
    ensures { result ≡ is_blank_line text.now }
{
    for i in 0..text.len() {
        if text[i] == b'\n' {
            return true;
        }
        if !starts_blank(&text[i..]) {
            return false;
        }
    }
    true
}

/// Does `%{` stand alone on its line? `bare` says that only blanks stand before.
fn is_block_opener(bare: bool, text: &[u8]) -> bool
    ensures { result ≡ is_block_opener bare text.now }
{
    match text {
        [_, b'{', rest @ ..] => bare && is_blank_line(rest),
        _ => false,
    }
}

/// A comment.
#[tactic(auto, unfolding(crate::specs::Pieces::comment_piece))]
fn comment_piece(bare: bool, text: &[u8]) -> Piece
    requires { 0 < length text.now }
    ensures value { result ≡ comment_piece bare text.now }
    ensures fits { FitsIn (length text.now) result }
{
    if is_block_opener(bare, text) {
        return Piece::Bad(0);
    }
    match line_rest(text, 1) {
        Ok(len) => Piece::Gap(len),
        Err(stray) => Piece::Bad(stray),
    }
}

/// Do three dots stand first?
fn starts_dots(text: &[u8]) -> bool
    ensures value { result ≡ starts_dots text.now }
    ensures there { IsTrue result → 3 ≤ length text.now }
{
    match text {
        [b'.', b'.', b'.', ..] => true,
        _ => false,
    }
}

/// Three dots, and what they pass over: the rest of the line and its end.
#[tactic(auto, unfolding(crate::specs::Pieces::joined_piece))]
fn joined_piece(text: &[u8]) -> Piece
    requires { 3 ≤ length text.now }
    ensures value { result ≡ joined_piece text.now }
    ensures fits { FitsIn (length text.now) result }
{
    match line_rest(text, 3) {
        Ok(len) => Piece::Gap(if len < text.len() { len + 1 } else { len }),
        Err(stray) => Piece::Bad(stray),
    }
}

/// A sign, or a byte that begins no token.
#[tactic(auto, unfolding(crate::specs::Pieces::sign_piece))]
fn sign_piece(text: &[u8]) -> Piece
    requires { 0 < length text.now }
    ensures value { result ≡ sign_piece text.now }
    ensures fits { FitsIn (length text.now) result }
{
    let byte = first(text);
    let next = second(text);
    if is_doubled(byte, next) {
        Piece::Bad(0)
    } else if is_sign_pair(byte, next) {
        Piece::Token(TokenKind::Sign, 2)
    } else if is_sign(byte) {
        Piece::Token(TokenKind::Sign, 1)
    } else {
        Piece::Bad(0)
    }
}

/// What begins where the text stands. `bare` says that only blanks stand before in the line, `closes` that a value ends
/// directly before.
#[tactic(auto, unfolding(crate::specs::Pieces::piece_at))]
pub(crate) fn piece_at(bare: bool, closes: bool, text: &[u8]) -> Piece
    requires { 0 < length text.now }
    ensures value { result ≡ piece_at bare closes text.now }
    ensures fits { FitsIn (length text.now) result }
{
    let byte = first(text);
    if byte.is_ascii_alphabetic() {
        name_piece(text)
    } else if byte.is_ascii_digit() {
        number_piece(text)
    } else if is_quote(byte) {
        text_piece(closes, text)
    } else if starts_blank(text) {
        Piece::Gap(1)
    } else if byte == b'\n' {
        Piece::Token(TokenKind::LineEnd, 1)
    } else if byte == b'%' {
        comment_piece(bare, text)
    } else if starts_dots(text) {
        joined_piece(text)
    } else {
        sign_piece(text)
    }
}

/// Does a value end with this token, of which the first byte is given, so that no text may begin directly behind it?
pub(crate) fn closes_value(kind: TokenKind, byte: u8) -> bool
    ensures { result ≡ closes_value kind byte }
{
    match kind {
        TokenKind::Name | TokenKind::Number | TokenKind::Text => true,
        TokenKind::Sign => byte == b')' || byte == b']' || byte == b'}',
        TokenKind::Word | TokenKind::LineEnd => false,
    }
}
