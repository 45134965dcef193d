//! Why a gather has no values.

use tall_store::ReadingFault;
use tall_value::Fault;

/// Why a gather has no values. A datastore is told by its place in the list, from 0, and a file by its place in the
/// datastore's list, from 0.
#[derive(Clone, Copy, Debug, PartialEq, Eq)]
pub enum GatherFault {
    /// The least fault, of an operation.
    Data(Fault),
    /// The least fault, of a datastore's reading.
    Reading {
        store: u32,
        fault: ReadingFault,
    },
    /// The shelf failed at a file.
    Read {
        store: u32,
        file: u32,
    },
    /// More than 2^50 bytes came of a file.
    TooLarge {
        store: u32,
        file: u32,
    },
    /// Two passes met two numbers of records in a file.
    Changed {
        store: u32,
        file: u32,
        first: u64,
        now: u64,
    },
    /// Memory was wanting.
    Memory,
}
