//! Blanks, signs, digits and words at the ends of a text.
ghost use Rattle.std.specs.Prelude.{◌≡◌, ◌≤◌, length, IsTrue};
ghost use Rattle.std.specs.List.{list_all, prefix_len, suffix_len};
ghost use Rattle.std.specs.Char.{is_ascii_digit};
ghost use Rattle.tall_num.specs.Spelling.{trimmed, is_blank, is_letter, is_word, is_digits, has_minus, after_sign, leading_digits, after_digits, first, short_number};

/// The first byte, or 0 where there is none.
pub(crate) fn first(text: &[u8]) -> u8
    ensures { result ≡ first text.now }
{
    match text {
        [byte, ..] => *byte,
        [] => 0,
    }
}

fn is_blank(byte: u8) -> bool
    ensures { result ≡ is_blank byte }
{
    byte == b' ' || byte == b'\t'
}

/// Is the byte the letter, given in lower case, in either case?
pub(crate) fn is_letter(lower: u8, byte: u8) -> bool
    ensures { result ≡ is_letter lower byte }
{
    byte == lower || u32::from(byte) + 32 == u32::from(lower)
}

/// How many blanks stand first.
fn blanks_before(text: &[u8]) -> usize
    ensures count { result ≡ prefix_len is_blank text.now }
    ensures within { result ≤ length text.now }
{
    text.iter().take_while(|b| is_blank(**b)).count()
}

/// How many blanks stand last.
fn blanks_after(text: &[u8]) -> usize
    ensures count { result ≡ suffix_len is_blank text.now }
    ensures within { result ≤ length text.now }
{
    text.iter().rev().take_while(|b| is_blank(**b)).count()
}

/// The bytes without the spaces and tabs at their ends, as a field is compared with the spellings of a missing value.
pub fn trim_blanks(bytes: &[u8]) -> &[u8]
    ensures { result.now ≡ trimmed bytes.now }
{
    let text = &bytes[blanks_before(bytes)..];
    &text[..text.len() - blanks_after(text)]
}

/// Is the text this word of three letters, given in lower case, in any case?
pub(crate) fn is_word(text: &[u8], word: &[u8; 3]) -> bool
    ensures { result ≡ is_word word.now text.now }
{
    text.len() == 3
        && is_letter(word[0], text[0])
        && is_letter(word[1], text[1])
        && is_letter(word[2], text[2])
}

/// Does the text begin with a minus, and what follows its sign?
pub(crate) fn signed(text: &[u8]) -> (bool, &[u8])
    ensures minus { result.0 ≡ has_minus text.now }
    ensures rest { result.1.now ≡ after_sign text.now }
{
    match text {
        [b'-', rest @ ..] => (true, rest),
        [b'+', rest @ ..] => (false, rest),
        _ => (false, text),
    }
}

/// How many digits stand first.
fn count_digits(text: &[u8]) -> usize
    ensures count { result ≡ prefix_len is_ascii_digit text.now }
    ensures within { result ≤ length text.now }
{
    text.iter().take_while(|b| b.is_ascii_digit()).count()
}

/// The digits that stand first, and what follows them.
#[tactic(auto, using(crate::proofs::Digits::list_all_prefix))]
pub(crate) fn split_digits(text: &[u8]) -> (&[u8], &[u8])
    ensures digits { result.0.now ≡ leading_digits text.now }
    ensures all { IsTrue (list_all is_ascii_digit result.0.now) }
    ensures rest { result.1.now ≡ after_digits text.now }
{
    text.split_at(count_digits(text))
}

fn all_digits(text: &[u8]) -> bool
    ensures { result ≡ list_all is_ascii_digit text.now }
{
    text.iter().all(|b| b.is_ascii_digit())
}

/// Is the text one digit or more, and nothing else?
pub(crate) fn is_digits(text: &[u8]) -> bool
    ensures { result ≡ is_digits text.now }
{
    !text.is_empty() && all_digits(text)
}

/// The number that the text writes, if it is one digit to eighteen and nothing else.
pub(crate) fn short_number(text: &[u8]) -> Option<u64>
    ensures { result ≡ short_number text.now }
{
    if text.is_empty() || text.len() > 18 {
        return None;
    }
    let mut number = 0u64;
    for byte in text {
        if !byte.is_ascii_digit() {
            return None;
        }
        number = number * 10 + u64::from(*byte - b'0');
    }
    Some(number)
}
