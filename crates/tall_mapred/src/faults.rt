//! Why mapreduce has no table.

use tall_fun::FunKind;
use tall_store::ReadingFault;

/// Why mapreduce has no table.
#[derive(Drop)]
pub enum MapFault {
    /// The first fault of a function: the line in it, the row of a data fault, and what is wrong.
    At {
        line: u32,
        row: Option<u64>,
        kind: FunKind,
    },
    /// The first reading fault of the datastore.
    Reading(ReadingFault),
    /// The shelf failed at a file, by its place in the datastore's list, from 0.
    Read {
        file: u32,
    },
    /// More than 2^50 bytes came of a file.
    TooLarge {
        file: u32,
    },
    /// Memory was wanting.
    Memory,
}
