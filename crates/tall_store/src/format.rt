//! The formats of variables.
ghost use Rattle.std.specs.Prelude.{◌≡◌};
ghost use Rattle.tall_store.specs.Formats.{class_of_format};

use tall_value::Class;

/// How the fields of a variable are read (MathWorks, TabularTextDatastore, `TextscanFormats`).
#[derive(Clone, Copy, Debug, PartialEq, Eq)]
pub enum Format {
    /// `%d8`
    Int8,
    /// `%d16`
    Int16,
    /// `%d32`, and `%d`
    Int32,
    /// `%d64`
    Int64,
    /// `%u8`
    Uint8,
    /// `%u16`
    Uint16,
    /// `%u32`, and `%u`
    Uint32,
    /// `%u64`
    Uint64,
    /// `%f`
    Double,
    /// `%q`
    Text,
}

impl Format {
    /// The class of a variable of this format.
    pub fn class(self) -> Class
        ensures { result ≡ class_of_format self }
    {
        match self {
            Format::Int8 => Class::Int8,
            Format::Int16 => Class::Int16,
            Format::Int32 => Class::Int32,
            Format::Int64 => Class::Int64,
            Format::Uint8 => Class::Uint8,
            Format::Uint16 => Class::Uint16,
            Format::Uint32 => Class::Uint32,
            Format::Uint64 => Class::Uint64,
            Format::Double => Class::Double,
            Format::Text => Class::Text,
        }
    }
}
