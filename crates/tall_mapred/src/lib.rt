//! mapreduce: a map function is called for each block of a datastore's files, and a reduce function for each key of the pairs
//! that it added.
//!
//! A call is made on an empty store, so that calls need nothing of each other: workers make those of a window of blocks or keys
//! side by side, and their pairs are then appended in order to those of the calls before.
#![tactic(auto)]

mod blocks;
mod calls;
mod faults;
mod given;
mod joining;
mod mapping;
mod phases;
mod reducing;
mod taker;

pub use faults::MapFault;
pub use phases::mapreduce;
