//! One pass over the files of a datastore: the results of a level of a gather, and the least fault of its work.
#![tactic(auto)]

mod counts;
mod endings;
mod faults;
mod finish;
mod given;
mod joining;
mod pass;
mod taker;
mod walking;
mod window;
mod work;

pub use counts::FileCounts;
pub use faults::PassFault;
pub use pass::run_pass;
