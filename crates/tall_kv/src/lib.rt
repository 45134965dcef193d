//! Pairs of keys and values, as map and reduce functions add them, and the values of each key.
//!
//! The keys stand in one column and the values in another, so the texts of each are in one buffer.
#![tactic(auto)]

mod faults;
mod groups;
mod key;
mod pairs;
mod rows;

pub use faults::PairFault;
pub use groups::Groups;
pub use pairs::Pairs;

#[cfg(test)]
mod tests;
