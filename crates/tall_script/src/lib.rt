//! The meaning of a script's statements, of datastores, gathers and mapreduce, and of whole runs, as definitions.
//!
//! No evaluator stands here: the definitions in specs/ are what the crates above are proved against. Worked runs are
//! tall_script_rows.
#![tactic(auto)]

pub mod laws;
