//! The lines that end a run on the standard error: docs/LANGUAGE.md, "Fault lines".
//!
//! Each line is whole: with the program's name in front and a line feed behind.
#![tactic(auto)]

mod faults;
mod outside;
mod refusals;
mod scripts;
mod whole;

pub use faults::stop_line;
pub use outside::{
    cannot_read_line, cannot_write_line, changed_line, out_of_memory_line, too_large_line,
};
pub use refusals::Refusal;
pub use scripts::{
    bad_token_line, no_script_line, syntax_line, too_deep_line, too_long_line, usage_line,
};

#[cfg(test)]
mod tests;
