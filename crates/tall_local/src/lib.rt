//! Values in memory: what operators, indexes and functions make of them, expressions, calls of map and reduce functions, pairs,
//! and the texts of values and of faults.
//!
//! No evaluator stands here: the definitions in specs/ are what the crates above are proved against, and the enums of
//! functions are theirs and the code's.
#![tactic(auto)]

pub mod functions;
pub mod laws;

pub use functions::{LocalFunction, ScriptFunction, SumOption, ValueFunction};
