//! Why an operator or a function refuses, and what is wrong in files of data.
ghost use Rattle.std.specs.Prelude.{◌≡◌};
ghost use Rattle.tall_value.specs.Reductions.{data_fault};

/// Why an operator doesn't take operands of their classes.
#[derive(Clone, Copy, Debug, PartialEq, Eq)]
pub enum ClassFault {
    /// Integers combine only with integers of their class and with scalar doubles.
    MixedClass,
    /// The operator doesn't take the class at all.
    BadClass,
}

/// Why an operator has no result at a row.
#[derive(Clone, Copy, Debug, PartialEq, Eq)]
pub enum CellFault {
    /// The result is a double of magnitude above 2^53, or a nonzero double over zero.
    Inexact,
    /// The quotient of two doubles isn't whole.
    NotWhole,
    /// A NaN as a logical.
    NanLogical,
}

/// What went wrong in the data of an expression.
#[derive(Clone, Copy, Debug, PartialEq, Eq)]
pub enum FaultKind {
    /// A double of magnitude above 2^53, or a nonzero double over zero.
    Inexact,
    /// A quotient of doubles that isn't whole.
    NotWhole,
    /// A NaN as a logical.
    NanLogical,
    /// A minimum or maximum over no rows.
    NoRows,
}

impl CellFault {
    /// The fault of the expression that has no result at a row.
    pub fn kind(self) -> FaultKind
        ensures { result ≡ data_fault self }
    {
        match self {
            CellFault::Inexact => FaultKind::Inexact,
            CellFault::NotWhole => FaultKind::NotWhole,
            CellFault::NanLogical => FaultKind::NanLogical,
        }
    }
}

/// A fault in the data of an expression.
#[derive(Clone, Copy, Debug, PartialEq, Eq)]
pub struct Fault {
    /// The expression's number in the script.
    pub number: u32,
    /// The line of the expression's statement.
    pub line: u32,
    /// The row, from 1; none for a reduction and an operator over scalars.
    pub row: Option<u64>,
    /// What went wrong.
    pub kind: FaultKind,
}

/// What is wrong with a file, a record or a field of data, in the order in which faults at one place come.
#[derive(Clone, Copy, Debug, PartialEq, Eq)]
pub enum ReadingKind {
    /// A file isn't there.
    NoFile,
    /// The first record of a file isn't that of the first file.
    HeaderDiffers,
    /// The row is the one numbered 2^40.
    TooManyRows,
    /// The record has more fields than there are variables.
    TooManyFields,
    /// The field is neither a number nor missing.
    BadField,
    /// The field of a text isn't UTF-8.
    BadText,
    /// The number of a double isn't whole.
    NotWhole,
    /// The number of a double is above 2^53 in magnitude.
    Inexact,
}
