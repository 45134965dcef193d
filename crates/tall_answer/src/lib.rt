//! The answer of the words of the command line over files: what the program prints, how it ends, and how often it may open a file.
//!
//! No code stands here: the definitions in specs/ are what the program is proved against.
#![tactic(auto)]

pub mod laws;
