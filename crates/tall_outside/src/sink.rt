//! A sink that takes bytes.

ghost use Rattle.std.specs.Prelude.{ℕ, Option, List};
ghost use Rattle.std.specs.Io.{WritesAtMost};
ghost use Rattle.std.specs.Io.KnownBytes.{WriteAppends};
ghost use Rattle.tall_outside.specs.Sink.{WriteCounts};

/// Why a sink took nothing.
#[derive(Clone, Copy, PartialEq, Eq, Debug)]
pub enum WriteFault {
    /// The outside refused.
    Failed,
    /// Memory was wanting.
    Memory,
}

/// A sink that takes bytes, in order.
pub trait Sink {
    /// The bytes that it took, where it tells them.
    ghost written: { Self → Option (List ℕ) };
    /// How often the outside refused.
    ghost faults: { Self → ℕ };

    /// Takes some bytes from the front of a piece, and answers how many.
    ///
    /// It takes none of a piece that isn't empty only where the outside refused or memory was wanting.
    /// At an error nothing was taken.
    fn write(&mut self, piece: &[u8]) -> Result<usize, WriteFault>
        ensures bound { WritesAtMost result piece.now }
        ensures bytes { WriteAppends (written self.old) (written self.new) result piece.now }
        ensures faults { WriteCounts result piece.now (faults self.old) (faults self.new) };
}
