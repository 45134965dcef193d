//! How a walk over files ends.

use tall_store::{FileEnd, ReadingFault};

/// How a walk over the files of a datastore ended.
#[derive(Drop)]
pub enum WalkEnd<E> {
    /// All files were walked over.
    Whole,
    /// A fault of a file itself: it isn't there, its header is not that of the first file, or it has the row numbered
    /// 2^40.
    Reading(ReadingFault),
    /// The taker of the blocks stopped.
    Stopped(E),
    /// The shelf failed at a file, by its place in the datastore's list, from 0.
    Read { file: u32 },
    /// More than 2^50 bytes came of a file.
    TooLarge { file: u32 },
    /// Memory was wanting.
    Memory,
}

/// How a walk over one file ended.
#[derive(Drop)]
pub(crate) enum FileOutcome<E> {
    /// By the file.
    Ended(FileEnd),
    /// By the taker of its blocks.
    Stopped(E),
}
