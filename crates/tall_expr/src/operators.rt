//! The operators that signs are.
ghost use Rattle.std.specs.Prelude.{◌≡◌};
ghost use Rattle.tall_grammar.specs.Lexemes as lexemes;
ghost use Rattle.tall_grammar.specs.ExprReader as spec;

use tall_grammar::expressions::{Infix, Prefix};

/// Is the text this one?
pub fn is(text: &[u8], other: &[u8]) -> bool
    ensures { result ≡ lexemes.is_text text.now other.now }
{
    text == other
}

/// The comparison that a sign is.
fn comparison(sign: &[u8]) -> Option<Infix>
    ensures { result ≡ lexemes.comparison sign.now }
{
    if is(sign, b"==") {
        Some(Infix::Eq)
    } else if is(sign, b"~=") {
        Some(Infix::Ne)
    } else if is(sign, b"<") {
        Some(Infix::Lt)
    } else if is(sign, b"<=") {
        Some(Infix::Le)
    } else if is(sign, b">") {
        Some(Infix::Gt)
    } else if is(sign, b">=") {
        Some(Infix::Ge)
    } else {
        None
    }
}

/// The sum or difference that a sign is.
fn additive(sign: &[u8]) -> Option<Infix>
    ensures { result ≡ lexemes.additive sign.now }
{
    if is(sign, b"+") {
        Some(Infix::Add)
    } else if is(sign, b"-") {
        Some(Infix::Sub)
    } else {
        None
    }
}

/// The product or quotient that a sign is.
fn multiplicative(sign: &[u8]) -> Option<Infix>
    ensures { result ≡ lexemes.multiplicative sign.now }
{
    if is(sign, b".*") {
        Some(Infix::DotMul)
    } else if is(sign, b"./") {
        Some(Infix::DotDiv)
    } else if is(sign, b"*") {
        Some(Infix::Mul)
    } else if is(sign, b"/") {
        Some(Infix::Div)
    } else {
        None
    }
}

/// The operator of a level that a sign is. Level 0 binds most, level 4 and those above least.
pub fn operator(level: u32, sign: &[u8]) -> Option<Infix>
    ensures { result ≡ spec.operators level sign.now }
{
    match level {
        0 => multiplicative(sign),
        1 => additive(sign),
        2 => comparison(sign),
        3 => if is(sign, b"&") {
            Some(Infix::And)
        } else {
            None
        },
        _ => if is(sign, b"|") {
            Some(Infix::Or)
        } else {
            None
        },
    }
}

/// The operator that a sign is before an operand.
pub fn prefix(sign: &[u8]) -> Option<Prefix>
    ensures { result ≡ lexemes.prefix_sign sign.now }
{
    if is(sign, b"-") {
        Some(Prefix::Minus)
    } else if is(sign, b"+") {
        Some(Prefix::Plus)
    } else if is(sign, b"~") {
        Some(Prefix::Not)
    } else {
        None
    }
}
