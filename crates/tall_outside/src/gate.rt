//! A gate between two steps of a worker.

/// What a worker passes after it claimed a place and before it publishes that place's piece.
pub trait Gate {
    /// Called by the worker that claimed this place. It may wait, and it has no result.
    fn between(&self, place: u64);
}

/// A gate that does nothing.
#[derive(Drop)]
pub struct OpenGate;

impl Gate for OpenGate {
    fn between(&self, _place: u64) {}
}
