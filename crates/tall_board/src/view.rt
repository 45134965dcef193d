//! What a seat knows.

/// What the proofs know of a seat; no value of it is made.
pub struct View {
    /// The seat's part of the 2^32 seats that a board can be split into.
    pub room: u64,
    /// A number that the ticket word has reached.
    pub seen: u64,
    /// Whether the seat was told that no place is left.
    pub told: bool,
    /// The place that the seat holds.
    pub ticket: Option<u64>,
}
