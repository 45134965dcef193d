//! A sink in memory, for tests.

ghost use Rattle.std.specs.Prelude.{◌≡◌, ◌++◌, ◌∷◌, [], Some, IfOk, OnOk, OnErr, length};
ghost use Rattle.std.specs.Io.{WritesAtMost};
ghost use Rattle.std.specs.Io.KnownBytes.{WriteAppends};
ghost use Rattle.tall_outside.specs.Count.{raised};
ghost use Rattle.tall_outside.specs.Sink.{WriteCounts};
ghost use Rattle.tall_outside.specs.MemSink.{state_of, plan_of, fails_next, FailsIf, empty, no_plan};

use crate::sink::{Sink, WriteFault};
use std::alloc::{AllocError, Global};

/// A sink in memory that tells everything, takes each piece whole, and fails where a test plans it.
#[derive(Drop)]
pub struct MemSink {
    bytes: Vec<u8>,
    faults: u64,
    writes: u64,
    failing: Vec<u64>,
}

impl MemSink {
    /// A sink that has taken nothing, with no failure planned.
    pub fn new(alloc: Global) -> MemSink
        ensures state { state_of result ≡ empty }
        ensures plan { plan_of result ≡ no_plan }
    {
        MemSink {
            bytes: Vec::new(alloc),
            faults: 0,
            writes: 0,
            failing: Vec::new(alloc),
        }
    }

    /// Plans that this call of `write` fails, counted from 1 over the sink's life.
    pub fn fail_at(&mut self, call: u64) -> Result<(), AllocError>
        ensures state { state_of self.new ≡ state_of self.old }
        ensures ok { OnOk result (plan_of self.new ≡ record (plan_of self.old) { failing = (plan_of self.old).failing ++ call ∷ [] }) }
        ensures err { OnErr result (plan_of self.new ≡ plan_of self.old) }
    {
        self.failing.push(call)?;
        Ok(())
    }

    /// The bytes that it took.
    pub fn bytes(&self) -> &[u8]
        ensures { result.now ≡ (state_of self.now).written }
    {
        self.bytes.as_slice()
    }
}

impl Sink for MemSink {
    ghost written = { λ s. Some (state_of s).written };

    ghost faults = { λ s. (state_of s).faults };

    fn write(&mut self, piece: &[u8]) -> Result<usize, WriteFault>
        ensures bound { WritesAtMost result piece.now }
        ensures bytes { WriteAppends (Some (state_of self.old).written) (Some (state_of self.new).written) result piece.now }
        ensures faults { WriteCounts result piece.now (state_of self.old).faults (state_of self.new).faults }

        // A call fails exactly where that was planned, unless memory was wanting, and else takes all.
        ensures planned { FailsIf (fails_next (plan_of self.old)) result }
        ensures whole { IfOk result (λ n. n ≡ length piece.now) }
        ensures plan { plan_of self.new ≡ record (plan_of self.old) { writes = raised (plan_of self.old).writes } }
    {
        self.writes = self.writes.saturating_add(1);
        if self.failing.contains(&self.writes) {
            self.faults = self.faults.saturating_add(1);
            return Err(WriteFault::Failed);
        }
        match self.bytes.extend_from_slice(piece) {
            Ok(()) => Ok(piece.len()),
            Err(AllocError) => Err(WriteFault::Memory),
        }
    }
}

#[cfg(test)]
mod tests {
    use super::*;
    use std::test::Fail;

    #[test]
    fn takes_all_but_the_planned_pieces(rt: HostRuntime) -> Result<(), Fail> {
        let mut sink = MemSink::new(rt.alloc());
        sink.fail_at(2)?;
        let answers = [
            sink.write(b"one "),
            sink.write(b"two "),
            sink.write(b"three"),
        ];
        assert_eq!(rt; answers, [Ok(4), Err(WriteFault::Failed), Ok(5)]);
        assert_eq!(rt; sink.bytes(), b"one three".as_slice());
        assert_eq!(rt; sink.faults, 1);
        Ok(())
    }
}
