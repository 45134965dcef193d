//! Why a pass has no results.

use tall_store::ReadingFault;

/// Why a pass has no results.
#[derive(Clone, Copy, Debug, PartialEq, Eq)]
pub enum PassFault {
    /// The first reading fault of the datastore.
    Reading(ReadingFault),
    /// The shelf failed at a file, by its place in the datastore's list, from 0.
    Read { file: u32 },
    /// More than 2^50 bytes came of a file.
    TooLarge { file: u32 },
    /// A file had another number of records than in an earlier pass.
    Changed { file: u32, first: u64, now: u64 },
    /// Memory was wanting.
    Memory,
}
