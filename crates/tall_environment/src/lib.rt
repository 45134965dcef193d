//! What a script has while it runs.
//!
//! An `Environment` has the names with their values, the datastores, and one graph of all deferred values. Contracts see it as a
//! `SeenEnvironment`; `state_at f` of that is the state of the definitions, where `f` solves the graph.
#![tactic(auto)]

mod allowed;
mod arguments;
mod environment;
mod failures;
#[cfg(test)]
mod tests;
mod values;

pub use arguments::values_lent;
pub use environment::Environment;
pub use failures::{Failure, Refusal, at_line, refused};
pub use values::{copied, shared};
