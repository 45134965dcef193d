//! Why an expression or a statement of a function goes no further.
ghost use Rattle.std.specs.Prelude.{◌≡◌, None, option_map};
ghost use Rattle.tall_local.specs.Refusals.{stop_at};
ghost use Rattle.tall_fun.specs.Failures.{memory_refusal, stop_of};

use tall_memory::MemoryFault;

/// What is refused.
#[derive(Drop)]
pub(crate) enum Refused {
    /// An operator, an index or a function over values in memory, or there is no memory.
    Value(MemoryFault),
    EndOfValues,
    NoProgress,
    TooManyTurns,
    KeyClass,
    ValueClass,
    TooManyRows,
}

/// What is refused, and the line that it names.
#[derive(Drop)]
pub(crate) struct Failure {
    pub(crate) line: u32,
    pub(crate) refused: Refused,
}

/// There is no memory.
pub(crate) fn no_memory() -> Failure
    ensures { stop_of result ≡ None }
{
    Failure {
        line: 0,
        refused: Refused::Value(MemoryFault::Memory),
    }
}

/// An answer over values in memory that is refused on a line.
pub(crate) fn failed(line: u32, fault: MemoryFault) -> Failure
    ensures { stop_of result ≡ option_map (stop_at line) (memory_refusal fault) }
{
    Failure {
        line,
        refused: Refused::Value(fault),
    }
}
