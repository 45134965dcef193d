//! Reductions and scans of columns that are cut into blocks, and the first and the last rows.
#![tactic(auto)]

mod carried;
mod carries;
mod ends;
mod kept;
mod laws;
mod pairs;
mod pick;
mod results;
mod running;
mod scans;
mod slices;
mod summary;
mod values;

pub use carries::Carry;
pub use ends::Ends;
pub use laws::scans_are_of_the_whole;
pub use scans::{carry, scan};
pub use summary::{Summary, summarise};
