//! A walk over all files of a datastore, block by block.
#![tactic(auto)]

mod ends;
mod taker;
mod walk;

pub use ends::WalkEnd;
pub use taker::TakesBlocks;
pub use walk::walk_files;
