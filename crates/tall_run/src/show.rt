//! What is written on the two outputs.

ghost use Rattle.std.specs.Prelude.{◌≡◌, ◌⊎◌};
ghost use Rattle.std.specs.Io.KnownBytes.{Appends};
ghost use Rattle.tall_local.specs.FaultLines.{cannot_write, out_of_memory, outside_line};
ghost use Rattle.tall_outside.specs.Count.{Rose};
ghost use Rattle.tall_run.specs.Answered.{Closes};
ghost use Rattle.tall_steps.specs.Ends.{AddsFront};

use tall_lines::{cannot_write_line, out_of_memory_line};
use tall_outside::{Sink, WriteFault};
use tall_steps::{Ending, Status, write_all};

/// Ends a run with a line, and with this status where all of the line is taken.
pub(crate) fn end_with<E: Sink>(err: &mut E, line: &[u8], status: Status) -> Status
    ensures { ((result ≡ Status.Write) × Rose (E.faults err.old) (E.faults err.new) × AddsFront line.now (E.written err.old) (E.written err.new))
        ⊎ ((result ≡ Status.Memory) × AddsFront line.now (E.written err.old) (E.written err.new))
        ⊎ ((result ≡ status) × Appends (E.written err.old) (E.written err.new) line.now) }
{
    match write_all(err, line) {
        Ok(()) => status,
        Err(WriteFault::Failed) => Status::Write,
        Err(WriteFault::Memory) => Status::Memory,
    }
}

/// Ends a run for want of memory.
pub(crate) fn end_without_memory<E: Sink>(err: &mut E) -> Status
    ensures { (result ≡ Status.Memory) × AddsFront (outside_line out_of_memory) (E.written err.old) (E.written err.new) }
{
    let _ = write_all(err, out_of_memory_line().as_bytes());
    Status::Memory
}

/// Ends a run that could not write its text.
pub(crate) fn end_unwritten<E: Sink>(err: &mut E) -> Status
    ensures { ((result ≡ Status.Write) × Rose (E.faults err.old) (E.faults err.new) × AddsFront (outside_line cannot_write) (E.written err.old) (E.written err.new))
        ⊎ ((result ≡ Status.Memory) × AddsFront (outside_line cannot_write) (E.written err.old) (E.written err.new))
        ⊎ ((result ≡ Status.Write) × Appends (E.written err.old) (E.written err.new) (outside_line cannot_write)) }
{
    end_with(err, cannot_write_line().as_bytes(), Status::Write)
}

/// Ends a run with its ending.
pub(crate) fn close<E: Sink>(ending: Ending, err: &mut E) -> Status
    ensures { Closes ending (Rose (E.faults err.old) (E.faults err.new)) result (E.written err.old) (E.written err.new) }
{
    match ending {
        Ending::Line { status, line } => end_with(err, line.as_slice(), status),
        Ending::Memory => end_without_memory(err),
    }
}
