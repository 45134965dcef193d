//! The words of the command line, and the files of the demo.
#![tactic(auto)]

pub mod command;
pub mod demo;
#[cfg(test)]
mod tests;
