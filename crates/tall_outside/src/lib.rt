//! The outside of the program: the traits of a shelf of files, a sink for bytes and a gate between
//! two steps of a worker, with implementations in memory for tests and over the host's own files.
//!
//! Every count of shelves and sinks that stands at the last value of u64 stays there and is taken as risen.
#![tactic(auto)]

pub mod calm_shelf;
pub mod calm_sink;
pub mod gate;
pub mod grow_shelf;
pub mod hold_gate;
pub mod host;
pub mod mem_shelf;
pub mod mem_sink;
pub mod shelf;
pub mod sink;

pub use calm_shelf::CalmShelf;
pub use calm_sink::CalmSink;
pub use gate::{Gate, OpenGate};
pub use grow_shelf::GrowShelf;
pub use hold_gate::HoldGate;
pub use host::{HostShelf, HostSink};
pub use mem_shelf::{MemShelf, has_distinct_names};
pub use mem_sink::MemSink;
pub use shelf::{Failed, Opening, Shelf};
pub use sink::{Sink, WriteFault};

#[cfg(test)]
mod tests;
