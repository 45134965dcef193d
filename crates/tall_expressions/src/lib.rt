//! Expressions of a script.
//!
//! `script_value` gives what the definitions give for an expression: its value, or where it stops, and in both cases what it
//! leaves; `values_given` does so for the arguments of a call.
#![tactic(auto)]

mod arguments;
mod calls;
mod evaluation;
mod expressions;
mod language;
mod lookups;
mod names;

pub use expressions::{script_value, values_given};
