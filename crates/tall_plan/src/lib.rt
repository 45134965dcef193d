//! The plan of a gather: which passes over datastores compute what its arguments depend on.
#![tactic(auto)]

mod needed;
mod passes;
mod plans;

pub use passes::{Pass, Plan};
pub use plans::{greatest_level, needed_nodes, plan};
