//! What is known between the passes of a gather: the small results and the collected columns of nodes, and what the blocks
//! of scans go on from.
#![tactic(auto)]

mod known;
mod parts;

pub use known::Known;
