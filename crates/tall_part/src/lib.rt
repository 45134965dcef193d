//! What a pass keeps of the rows so far for values that need all rows of their operands.
#![tactic(auto)]

mod block;
mod finishes;
mod joins;
mod laws;
mod next_carry;
mod operation;
mod part;
mod results;

pub use block::block_carry;
pub use laws::{
    accepted_ends_are_taken, all_rows_give_the_outcome, ends_are_all_but_scans,
    rows_of_blocks_give_the_outcome,
};
pub use next_carry::NextCarry;
pub use operation::{EndOperation, column_number};
pub use part::EndPart;
pub use results::{EndColumn, EndFault};
