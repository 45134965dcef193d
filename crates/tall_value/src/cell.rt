//! One value of a class.
ghost use Rattle.std.specs.Prelude.{◌≡◌, ◌≤◌, ◌^◌, IfSome, unsigned_abs};
ghost use Rattle.tall_value.specs.Classes.{class_of};
ghost use Rattle.tall_value.specs.Cells.{HasSmall, amount, content_seen, seen, seen_kind};

use crate::class::{Class, IntKind, Kind};
use tall_int::Whole;

/// A value of a class; a text is lent. Calls take a cell by reference.
#[derive(Clone, Copy, Debug, PartialEq, Eq)]
pub enum Cell<'a> {
    I8(i8),
    I16(i16),
    I32(i32),
    I64(i64),
    U8(u8),
    U16(u16),
    U32(u32),
    U64(u64),
    Logical(bool),
    Double(Whole),
    Text(&'a str),
}

/// What a cell holds: for all integer classes together the class and the number.
#[derive(Clone, Copy, Debug)]
pub enum Content<'a> {
    Whole(IntKind, i128),
    Logical(bool),
    Double(Whole),
    Text(&'a str),
}

impl<'a> Content<'a> {
    /// The kind of the cell's class.
    pub fn kind(&self) -> Kind
        ensures { result ≡ seen_kind (content_seen self.now) }
    {
        match *self {
            Content::Whole(kind, _) => Kind::Integer(kind),
            Content::Logical(_) => Kind::Logical,
            Content::Double(_) => Kind::Double,
            Content::Text(_) => Kind::Text,
        }
    }
}

impl<'a> Cell<'a> {
    /// What the cell holds.
    pub fn content(&self) -> Content<'a>
        ensures seen { content_seen result ≡ seen self.now }
        ensures small { HasSmall (content_seen result) }
    {
        match *self {
            Cell::I8(n) => Content::Whole(IntKind::Int8, n as i128),
            Cell::I16(n) => Content::Whole(IntKind::Int16, n as i128),
            Cell::I32(n) => Content::Whole(IntKind::Int32, n as i128),
            Cell::I64(n) => Content::Whole(IntKind::Int64, n as i128),
            Cell::U8(n) => Content::Whole(IntKind::Uint8, n as i128),
            Cell::U16(n) => Content::Whole(IntKind::Uint16, n as i128),
            Cell::U32(n) => Content::Whole(IntKind::Uint32, n as i128),
            Cell::U64(n) => Content::Whole(IntKind::Uint64, n as i128),
            Cell::Logical(b) => Content::Logical(b),
            Cell::Double(d) => Content::Double(d),
            Cell::Text(t) => Content::Text(t),
        }
    }

    /// The number that the cell stands for, a logical for 0 or 1; none for NaN and for a text.
    pub fn amount(&self) -> Option<i128>
        ensures number { result ≡ amount (seen self.now) }
        ensures small { IfSome result (λ n. unsigned_abs n ≤ 2 ^ 64) }
    {
        match self.content() {
            Content::Whole(_, n) => Some(n),
            Content::Logical(b) => Some(if b { 1 } else { 0 }),
            Content::Double(d) => match d.get() {
                Some(n) => Some(n as i128),
                None => None,
            },
            Content::Text(_) => None,
        }
    }

    /// The class of the cell.
    pub fn class(&self) -> Class
        ensures { result ≡ class_of (seen_kind (seen self.now)) }
    {
        self.content().kind().class()
    }
}
