//! A block's work in a pass over a datastore as one function, and the joining of what the blocks give.
#![tactic(auto)]

mod faults;
mod laws;
mod making;
mod parts;
mod pieces;
mod sums;
mod wanted;

pub use faults::earlier;
pub use laws::{all_blocks_give_the_answer_of_a_pass, premises_can_be_met};
pub use making::{BlockColumns, block_part};
pub use parts::{Part, Sum};
pub use pieces::{Piece, block_piece};
pub use sums::{BlockParts, Sums};
pub use wanted::{Wanted, Way};
