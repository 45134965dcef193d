//! How the reading of one file of a datastore ends.

use crate::faults::ReadingFault;

/// How the reading of a file ended.
#[derive(Clone, Copy, Debug, PartialEq, Eq)]
pub enum FileEnd {
    /// All of its data records were given: so many.
    Whole(u64),
    /// A fault of the file itself: it isn't there, its header is not that of the first file, or it has the row numbered
    /// 2^40.
    Reading(ReadingFault),
    /// The shelf failed.
    Failed,
    /// More than 2^50 bytes came.
    TooLarge,
    /// Memory was wanting.
    Memory,
}
