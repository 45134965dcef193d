//! Why a call of a function goes no further, as it is told to callers.
ghost use Rattle.std.specs.Prelude.{◌≡◌, None, Some, option_map};
ghost use Rattle.tall_local.specs.Refusals.{failed, stop_at};
ghost use Rattle.tall_fun.specs.Failures.{memory_refusal, stop_of};
ghost use Rattle.tall_fun.specs.Faults.{Names};

use crate::failures::{Failure, Refused};
use tall_memory::MemoryFault;
use tall_value::{FaultKind, Name};

/// What is wrong in a call of a map or a reduce function (docs/LANGUAGE.md, mapreduce).
#[derive(Drop)]
pub enum FunKind {
    /// Nothing has this name, or it has no value.
    Undefined(Name),
    MixedClass,
    BadClass,
    BadSize,
    BadArgument,
    BadIndex,
    /// A double of magnitude above 2^53, or a nonzero double over zero.
    Inexact,
    /// A quotient of doubles that isn't whole.
    NotWhole,
    /// A NaN as a logical.
    NanLogical,
    /// A minimum or maximum over no rows.
    NoRows,
    /// `getnext` where no value is left.
    EndOfValues,
    /// A turn of `while hasnext(v)` that took no value.
    NoProgress,
    /// Turn 2^24 of the call.
    TooManyTurns,
    KeyClass,
    ValueClass,
    /// The pair with which the store would have 2^40.
    TooManyRows,
}

/// Why a call of a map or a reduce function did not come to its end.
#[derive(Drop)]
pub enum FunFault {
    /// The line on which the failing statement begins, the row of the data at fault, counted from 1, where there is one, and what is
    /// wrong.
    At {
        line: u32,
        row: Option<u64>,
        kind: FunKind,
    },
    /// There is no memory for the call.
    Memory,
}

/// A fault without a row.
fn without_row(line: u32, kind: FunKind) -> FunFault
    ensures { result ≡ FunFault.At line None kind }
{
    FunFault::At {
        line,
        row: None,
        kind,
    }
}

/// The fault of data in a row, or of no row.
fn data_fault(line: u32, row: Option<u64>, kind: FaultKind) -> FunFault
    ensures { Names (Some (stop_at line (failed row kind))) result }
{
    match kind {
        FaultKind::Inexact => FunFault::At {
            line,
            row,
            kind: FunKind::Inexact,
        },
        FaultKind::NotWhole => FunFault::At {
            line,
            row,
            kind: FunKind::NotWhole,
        },
        FaultKind::NanLogical => FunFault::At {
            line,
            row,
            kind: FunKind::NanLogical,
        },
        FaultKind::NoRows => FunFault::At {
            line,
            row,
            kind: FunKind::NoRows,
        },
    }
}

/// The fault of values in memory.
fn value_fault(line: u32, fault: MemoryFault) -> FunFault
    ensures { Names (option_map (stop_at line) (memory_refusal fault)) result }
{
    match fault {
        MemoryFault::Undefined(name) => without_row(line, FunKind::Undefined(name)),
        MemoryFault::MixedClass => without_row(line, FunKind::MixedClass),
        MemoryFault::BadClass => without_row(line, FunKind::BadClass),
        MemoryFault::BadSize => without_row(line, FunKind::BadSize),
        MemoryFault::BadArgument => without_row(line, FunKind::BadArgument),
        MemoryFault::BadIndex => without_row(line, FunKind::BadIndex),
        MemoryFault::Data { row, kind } => data_fault(line, row, kind),
        MemoryFault::Memory => FunFault::Memory,
    }
}

/// The fault of a call that failed so.
pub(crate) fn fault_of(failure: Failure) -> FunFault
    ensures { Names (stop_of failure) result }
{
    let Failure { line, refused } = failure;
    match refused {
        Refused::Value(fault) => value_fault(line, fault),
        Refused::EndOfValues => without_row(line, FunKind::EndOfValues),
        Refused::NoProgress => without_row(line, FunKind::NoProgress),
        Refused::TooManyTurns => without_row(line, FunKind::TooManyTurns),
        Refused::KeyClass => without_row(line, FunKind::KeyClass),
        Refused::ValueClass => without_row(line, FunKind::ValueClass),
        Refused::TooManyRows => without_row(line, FunKind::TooManyRows),
    }
}
