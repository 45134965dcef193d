//! The words of the command line.

use tall_int::Rounding;
use tall_value::{Binary, Class, Unary};

/// An operator of one operand or of two.
#[derive(Clone, Copy)]
pub(crate) enum Operator {
    One(Unary),
    Two(Binary),
}

/// A word, or the empty one.
pub(crate) fn word<'a>(words: &'a [String], at: usize) -> &'a str {
    match words.get(at) {
        Some(word) => word.as_str(),
        None => "",
    }
}

/// The number that a word spells, or 0.
pub(crate) fn number(words: &[String], at: usize) -> usize {
    word(words, at).parse().unwrap_or(0)
}

/// The class of a name; double for any other word.
pub(crate) fn class_of(name: &str) -> Class {
    match name {
        "int8" => Class::Int8,
        "int16" => Class::Int16,
        "int32" => Class::Int32,
        "int64" => Class::Int64,
        "uint8" => Class::Uint8,
        "uint16" => Class::Uint16,
        "uint32" => Class::Uint32,
        "uint64" => Class::Uint64,
        "logical" => Class::Logical,
        "string" => Class::Text,
        _ => Class::Double,
    }
}

fn unary_of(name: &str) -> Option<Unary> {
    match name {
        "neg" => Some(Unary::Neg),
        "plus" => Some(Unary::Plus),
        "abs" => Some(Unary::Abs),
        "not" => Some(Unary::Not),
        "int16" => Some(Unary::ToInt16),
        "double" => Some(Unary::ToDouble),
        "logical" => Some(Unary::ToLogical),
        "isnan" => Some(Unary::IsNan),
        _ => None,
    }
}

fn binary_of(name: &str) -> Option<Binary> {
    match name {
        "add" => Some(Binary::Add),
        "sub" => Some(Binary::Sub),
        "mul" => Some(Binary::Mul),
        "div" => Some(Binary::Div),
        "mod" => Some(Binary::Modulo),
        "idivide" => Some(Binary::Idivide(Rounding::Fix)),
        "bitand" => Some(Binary::BitAnd),
        "bitor" => Some(Binary::BitOr),
        "bitxor" => Some(Binary::BitXor),
        "eq" => Some(Binary::Eq),
        "lt" => Some(Binary::Lt),
        "le" => Some(Binary::Le),
        "and" => Some(Binary::And),
        "or" => Some(Binary::Or),
        _ => None,
    }
}

/// The operator of a word.
pub(crate) fn operator_of(name: &str) -> Option<Operator> {
    match unary_of(name) {
        Some(op) => Some(Operator::One(op)),
        None => match binary_of(name) {
            Some(op) => Some(Operator::Two(op)),
            None => None,
        },
    }
}
