//! A block's work: the values of a pass over the rows of one block.
#![tactic(auto)]

mod block;
mod columns;
mod forms;
mod laws;
mod nodes;
mod numbers;
mod rows;
mod scans;
mod values;

pub use block::{BlockValues, block_values};
pub use columns::column;
pub use laws::a_block_of_a_pass_can_be_computed;
pub use numbers::row_numbers;
