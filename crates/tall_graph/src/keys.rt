//! The keys of the tables of forms and of spaces: an operation with the numbers of its operands, and what a space was made
//! from. Equal keys stand for equal trees and equal spaces.

use crate::classes::Part;
use tall_value::{Binary, Class, IntKind, Method, Reduction, Scan, Unary};

/// A constant's cell; a text by its number.
#[derive(Clone, Copy, PartialEq, Eq)]
pub(crate) enum CellKey {
    Whole(IntKind, i128),
    Logical(bool),
    Double(Option<i64>),
    Text(usize),
}

/// An operation with its options.
#[derive(Clone, Copy, PartialEq, Eq)]
pub(crate) enum OpKey {
    Constant(CellKey),
    Unary(Unary),
    Binary(Binary),
    Filter,
    Reduce(Reduction),
    Scan(Scan),
    Head(u64),
    Tail(u64),
    Distinct,
    Group { method: Method, part: Part },
}

/// The forms of operands.
#[derive(Clone, Copy, PartialEq, Eq)]
pub(crate) enum Forms {
    None,
    One(usize),
    Two(usize, usize),
}

/// What a value is computed from.
#[derive(Clone, Copy, PartialEq, Eq)]
pub(crate) enum FormKey {
    Column {
        store: u32,
        variable: u64,
        class: Class,
    },
    Over {
        op: OpKey,
        operands: Forms,
    },
}

/// What a space was made from: spaces and forms by their numbers.
#[derive(Clone, Copy, PartialEq, Eq)]
pub(crate) enum SpaceKey {
    Single,
    RowsOf(u32),
    Kept {
        space: usize,
        mask: usize,
    },
    First {
        k: u64,
        space: usize,
    },
    Last {
        k: u64,
        space: usize,
    },
    Distinct(usize),
    Groups {
        method: Method,
        key: usize,
        column: Option<usize>,
    },
}
