//! Functions of whole columns over values in memory: reductions, scans, distinct values, groups.
//!
//! Each function has the name of a word of tall_local's definitions, and gives what that word says of its operand: the value,
//! or the refusal. Operands are lent, so no function takes a value away.
#![tactic(auto)]

mod distinct;
mod groups;
mod operations;
mod reductions;
mod scans;
mod summary_names;

pub use distinct::memory_distinct;
pub use groups::memory_groups;
pub use operations::{memory_application, memory_operation};
pub use reductions::{memory_height, memory_reduce};
pub use scans::memory_scan;
pub use summary_names::{COUNT_NAME, are_distinct, value_name};
