//! Why there is no datastore, and why there are no columns.

pub use tall_value::ReadingKind;

/// Why a datastore could not be made.
#[derive(Clone, Copy, Debug, PartialEq, Eq)]
pub enum StoreFault {
    /// The options are not accepted.
    BadArgument,
    /// The first file isn't there.
    NoFile,
    /// The shelf failed.
    Failed,
    /// More than 2^50 bytes came of the first file.
    TooLarge,
    /// The first file has no record, or a field of its header isn't UTF-8.
    NoHeader,
    /// Memory was wanting.
    Memory,
}

/// A fault of the data of a datastore.
#[derive(Clone, Copy, Debug, PartialEq, Eq)]
pub struct ReadingFault {
    /// What is wrong.
    pub kind: ReadingKind,
    /// The file's place in the datastore's list, from 0.
    pub file: u32,
    /// The row, from 1 over all files.
    pub row: u64,
    /// The column of the file, from 1; 0 where the fault is no field's.
    pub column: u32,
}

/// Why a block has no columns.
#[derive(Clone, Copy, Debug, PartialEq, Eq)]
pub enum ColumnsFault {
    /// The first fault of the block's data.
    Reading(ReadingFault),
    /// Memory was wanting.
    Memory,
}
