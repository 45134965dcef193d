//! One statement of a script: what it shows, and what it leaves of the script's names, datastores and graph.
#![tactic(auto)]

mod assigning;
mod endings;
mod properties;
mod running;
mod texts;

pub use running::statement;
