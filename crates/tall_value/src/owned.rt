//! Cells, texts and names that are kept.
ghost use Rattle.std.specs.Prelude.{◌≡◌, IfOk};
ghost use Rattle.tall_value.specs.Cells.{seen};
ghost use Rattle.tall_value.specs.OwnedCells.{owned_seen};

use crate::cell::Cell;
use std::alloc::{AllocError, Global};
use std::marker::Model;
use tall_int::Whole;

/// A text that is kept, which contracts see as its bytes.
#[derive(Drop)]
pub struct Text {
    text: String,
}

impl Model for Text {
    ghost use Rattle.std.specs.Prelude.{List, ℕ, string_bytes};

    ghost Value = { List ℕ };

    ghost view = { λ t. string_bytes t.text };
}

impl Text {
    /// Keeps a text.
    pub fn of(alloc: Global, text: &str) -> Result<Text, AllocError>
        ensures { IfOk result (λ t. t ≡ text.now) }
    {
        Ok(Text {
            text: String::from_str(alloc, text)?,
        })
    }

    /// The text.
    pub fn as_str(&self) -> &str
        ensures { result.now ≡ self.now }
    {
        self.text.as_str()
    }
}

/// A name of the script, which contracts see as its bytes.
#[derive(Drop)]
pub struct Name {
    text: Text,
}

impl Model for Name {
    ghost use Rattle.std.specs.Prelude.{List, ℕ};

    ghost Value = { List ℕ };

    ghost view = { λ n. n.text };
}

impl Name {
    /// Keeps a name.
    pub fn of(alloc: Global, text: &str) -> Result<Name, AllocError>
        ensures { IfOk result (λ n. n ≡ text.now) }
    {
        Ok(Name {
            text: Text::of(alloc, text)?,
        })
    }

    /// The name's text.
    pub fn as_str(&self) -> &str
        ensures { result.now ≡ self.now }
    {
        self.text.as_str()
    }
}

/// A cell that is kept.
#[derive(Drop)]
pub enum Owned {
    I8(i8),
    I16(i16),
    I32(i32),
    I64(i64),
    U8(u8),
    U16(u16),
    U32(u32),
    U64(u64),
    Logical(bool),
    Double(Whole),
    Text(Text),
}

impl Owned {
    /// Keeps a cell.
    pub fn of(alloc: Global, cell: &Cell<'_>) -> Result<Owned, AllocError>
        ensures { IfOk result (λ o. owned_seen o ≡ seen cell.now) }
    {
        Ok(match *cell {
            Cell::I8(n) => Owned::I8(n),
            Cell::I16(n) => Owned::I16(n),
            Cell::I32(n) => Owned::I32(n),
            Cell::I64(n) => Owned::I64(n),
            Cell::U8(n) => Owned::U8(n),
            Cell::U16(n) => Owned::U16(n),
            Cell::U32(n) => Owned::U32(n),
            Cell::U64(n) => Owned::U64(n),
            Cell::Logical(b) => Owned::Logical(b),
            Cell::Double(d) => Owned::Double(d),
            Cell::Text(t) => Owned::Text(Text::of(alloc, t)?),
        })
    }

    /// The cell.
    pub fn cell(&self) -> Cell<'_>
        ensures { seen result ≡ owned_seen self.now }
    {
        match self {
            Owned::I8(n) => Cell::I8(*n),
            Owned::I16(n) => Cell::I16(*n),
            Owned::I32(n) => Cell::I32(*n),
            Owned::I64(n) => Cell::I64(*n),
            Owned::U8(n) => Cell::U8(*n),
            Owned::U16(n) => Cell::U16(*n),
            Owned::U32(n) => Cell::U32(*n),
            Owned::U64(n) => Cell::U64(*n),
            Owned::Logical(b) => Cell::Logical(*b),
            Owned::Double(d) => Cell::Double(*d),
            Owned::Text(t) => Cell::Text(t.as_str()),
        }
    }
}
