//! The classes of the language.
ghost use Rattle.std.specs.Prelude.{◌≡◌};
ghost use Rattle.tall_value.specs.Classes.{class_of, is_same, kind_of, place};

/// A class of the language.
#[derive(Clone, Copy, Debug, PartialEq, Eq)]
pub enum Class {
    /// -128 to 127
    Int8,
    /// -2^15 to 2^15 - 1
    Int16,
    /// -2^31 to 2^31 - 1
    Int32,
    /// -2^63 to 2^63 - 1
    Int64,
    /// 0 to 255
    Uint8,
    /// 0 to 2^16 - 1
    Uint16,
    /// 0 to 2^32 - 1
    Uint32,
    /// 0 to 2^64 - 1
    Uint64,
    /// false and true
    Logical,
    /// NaN, and the whole numbers of magnitude at most 2^53
    Double,
    /// string
    Text,
}

/// An integer class.
#[derive(Clone, Copy, Debug, PartialEq, Eq)]
pub enum IntKind {
    Int8,
    Int16,
    Int32,
    Int64,
    Uint8,
    Uint16,
    Uint32,
    Uint64,
}

/// The kind of a class: the tables of the operators have a row for each kind, and not for each class.
#[derive(Clone, Copy, Debug, PartialEq, Eq)]
pub enum Kind {
    Integer(IntKind),
    Logical,
    Double,
    Text,
}

impl Class {
    /// The kind of the class.
    pub fn kind(self) -> Kind
        ensures { result ≡ kind_of self }
    {
        match self {
            Class::Int8 => Kind::Integer(IntKind::Int8),
            Class::Int16 => Kind::Integer(IntKind::Int16),
            Class::Int32 => Kind::Integer(IntKind::Int32),
            Class::Int64 => Kind::Integer(IntKind::Int64),
            Class::Uint8 => Kind::Integer(IntKind::Uint8),
            Class::Uint16 => Kind::Integer(IntKind::Uint16),
            Class::Uint32 => Kind::Integer(IntKind::Uint32),
            Class::Uint64 => Kind::Integer(IntKind::Uint64),
            Class::Logical => Kind::Logical,
            Class::Double => Kind::Double,
            Class::Text => Kind::Text,
        }
    }
}

impl IntKind {
    /// The place of the class among the eight.
    fn place(self) -> u8
        ensures { result ≡ place self }
    {
        self as u8
    }

    /// The two classes are one.
    pub fn is_same(self, other: IntKind) -> bool
        ensures { result ≡ is_same self other }
    {
        self.place() == other.place()
    }
}

impl Kind {
    /// The class of the kind.
    pub fn class(self) -> Class
        ensures { result ≡ class_of self }
    {
        match self {
            Kind::Integer(IntKind::Int8) => Class::Int8,
            Kind::Integer(IntKind::Int16) => Class::Int16,
            Kind::Integer(IntKind::Int32) => Class::Int32,
            Kind::Integer(IntKind::Int64) => Class::Int64,
            Kind::Integer(IntKind::Uint8) => Class::Uint8,
            Kind::Integer(IntKind::Uint16) => Class::Uint16,
            Kind::Integer(IntKind::Uint32) => Class::Uint32,
            Kind::Integer(IntKind::Uint64) => Class::Uint64,
            Kind::Logical => Class::Logical,
            Kind::Double => Class::Double,
            Kind::Text => Class::Text,
        }
    }
}
