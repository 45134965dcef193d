//! A session: a script that runs statement by statement, and the run of all its statements.
#![tactic(auto)]

mod endings;
mod failing;
mod numbers;
mod session;
mod statements;
mod statuses;
mod stepping;
mod write;

pub use endings::{Ending, Step};
pub use failing::with_line;
pub use session::Session;
pub use statements::{RunEnd, run_statements};
pub use statuses::Status;
pub use write::write_all;
