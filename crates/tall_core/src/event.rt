//! What workers do, and what one of them holds.

/// An event of the machine; a worker is given by its number.
#[derive(Drop)]
pub enum Event<P> {
    /// The worker takes the next place.
    Claim(u32),
    /// The worker finds that no place is left.
    ClaimPast(u32),
    /// The worker lays the piece for the place that it holds.
    Lay(u32, P),
    /// The worker publishes the piece that it laid, and then holds nothing.
    Publish(u32),
}

/// A place that a worker holds, with its piece once it is laid.
#[derive(Drop)]
pub struct Held<P> {
    pub place: u64,
    pub piece: Option<P>,
}
