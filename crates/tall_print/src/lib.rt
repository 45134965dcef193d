//! The text of a value under its name (docs/LANGUAGE.md, "Printing").
//!
//! Each call adds to the end of one buffer. After a refusal, for want of memory alone, the buffer is as it was.
#![tactic(auto)]

mod cells;
mod lines;
mod values;

pub use values::{print_kind, print_texts, print_value};

#[cfg(test)]
mod tests;
