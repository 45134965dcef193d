//! Workers that share the places of one board, each in its own branch of a join.
#![tactic(auto)]

mod beside;
#[cfg(test)]
mod tests;
mod workers;

pub use beside::work_beside;
pub use workers::work;
