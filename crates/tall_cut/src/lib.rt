//! The records of a file in blocks: a file of a shelf is opened as a feed of bytes, and a cutter
//! finds the feed's records, as many at a time as its caller asked for. A block that was found is
//! plain bytes; its records are read with `csv`, by the cutter or by whoever works on them.
#![tactic(auto)]

mod block;
mod copying;
pub mod cutter;
pub mod feed;
mod opening;
mod reading;
mod records;
#[cfg(test)]
mod tests;

pub use cutter::{Cause, Cutter, Next, ReadSize};
pub use feed::{Feed, FeedFault, Lent, OpenedFile, Refused};
pub use opening::open_feed;
pub use records::Records;
pub use tall_scan::{Found, RawBlock};
