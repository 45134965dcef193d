//! What a step of a session gives, and how a run ends.

use crate::statuses::Status;

/// What a step gives.
#[derive(Drop)]
pub enum Step {
    /// The text that a statement shows.
    Text(Vec<u8>),
    /// No statement is left.
    Finished,
    /// An earlier step ended the run.
    Ended,
}

/// Why a run ends before its last statement.
#[derive(Drop)]
pub enum Ending {
    /// With this status, and this whole line on the error output.
    Line { status: Status, line: Vec<u8> },
    /// Memory was wanting.
    Memory,
}
