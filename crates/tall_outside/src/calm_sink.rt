//! A sink in memory whose calls never fail.

ghost use Rattle.std.specs.Prelude.{◌≡◌, Some, IfOk, [], length};
ghost use Rattle.std.specs.Io.{WritesAtMost};
ghost use Rattle.std.specs.Io.KnownBytes.{WriteAppends};
ghost use Rattle.tall_outside.specs.Sink.{IsCalm, WriteCounts};

use crate::sink::{Sink, WriteFault};
use std::alloc::Global;

/// A sink that tells everything, takes each piece whole and never fails: its count of faults is the constant 0. Want of
/// memory is its only refusal.
#[derive(Drop)]
pub struct CalmSink {
    bytes: Vec<u8>,
}

impl CalmSink {
    /// A sink that has taken nothing.
    pub fn new(alloc: Global) -> CalmSink
        ensures { result.bytes.items ≡ [] }
    {
        CalmSink {
            bytes: Vec::new(alloc),
        }
    }

    /// The bytes that it took.
    pub fn bytes(&self) -> &[u8]
        ensures { result.now ≡ self.now.bytes.items }
    {
        self.bytes.as_slice()
    }
}

impl Sink for CalmSink {
    ghost written = { λ s. Some s.bytes.items };

    ghost faults = { λ s. 0 };

    fn write(&mut self, piece: &[u8]) -> Result<usize, WriteFault>
        ensures bound { WritesAtMost result piece.now }
        ensures bytes { WriteAppends (Some self.old.bytes.items) (Some self.new.bytes.items) result piece.now }
        ensures faults { WriteCounts result piece.now 0 0 }
        ensures whole { IfOk result (λ n. n ≡ length piece.now) }
        ensures calm { IsCalm result }
    {
        match self.bytes.extend_from_slice(piece) {
            Ok(()) => Ok(piece.len()),
            Err(_) => Err(WriteFault::Memory),
        }
    }
}
