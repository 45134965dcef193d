//! Why a statement ends a run.

use tall_value::FaultKind;

/// Why a statement ends a run (docs/LANGUAGE.md, "Fault lines"). Names are those of the script, of files and of variables;
/// rows count from 1.
#[derive(Clone, Copy)]
pub enum Refusal<'a> {
    /// Nothing has this name.
    Undefined(&'a str),
    /// Integers combine only with integers of the same class, or scalar doubles.
    MixedClass,
    /// The operator or function does not take the class.
    BadClass,
    /// Tall arrays of different rows.
    Incompatible,
    /// Columns of unequal lengths.
    BadSize,
    /// The arguments have another form.
    BadArgument,
    /// No row has this number.
    BadIndex,
    /// The data of a row, or of no row.
    Data { row: Option<u64>, kind: FaultKind },
    /// A file isn't there.
    NoFile(&'a str),
    /// A datastore's first file has no record, or its header isn't UTF-8.
    NoHeader(&'a str),
    /// A later file has another first record.
    HeaderDiffers(&'a str),
    /// 2^40 rows or pairs, or more.
    TooManyRows,
    /// A record has more fields than there are variables.
    TooManyFields { row: u64 },
    /// A field is no number.
    BadField { row: u64, variable: &'a str },
    /// A field isn't UTF-8.
    BadText { row: u64, variable: &'a str },
    /// A field of a double is no whole number.
    FieldNotWhole { row: u64, variable: &'a str },
    /// A field of a double is above 2^53.
    FieldInexact { row: u64, variable: &'a str },
    /// An iterator has no value left.
    EndOfValues,
    /// A turn of a loop over an iterator took no value.
    NoProgress,
    /// 2^24 turns of loops in one call.
    TooManyTurns,
    /// The key of a pair is not accepted.
    KeyClass,
    /// The value of a pair is not accepted.
    ValueClass,
}
