//! Scripts from their command to their answer: the whole program, over a shelf of files and two sinks.
#![tactic(auto)]

mod demo;
mod evaluate;
mod program;
mod script;
mod show;
mod text;

pub use program::run;
pub use tall_steps::Status;
