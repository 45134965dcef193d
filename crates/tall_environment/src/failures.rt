//! Why an expression has no value.
ghost use Rattle.std.specs.Prelude.{◌≡◌, ℕ, IfErr, IfOk, Result};
ghost use Rattle.tall_local.specs.Refusals as refusal;
ghost use Rattle.tall_script.specs.ScriptValues.{TallValue};
ghost use Rattle.tall_semantics.specs.Talls.{Tall};
ghost use Rattle.tall_deferred.specs.Answers.{Comes};
ghost use Rattle.tall_deferred.specs.Faults.{IsDue};
ghost use Rattle.tall_deferred.specs.Values.{IsValue, value_at};
ghost use Rattle.tall_environment.specs.Failures.{AnswersAt, IsInside, Refuses};

use tall_deferred::{ScriptValue, ValueFault};
use tall_value::{FaultKind, Name, Text};

/// Why a statement ends a run (docs/LANGUAGE.md, fault lines).
#[derive(Drop)]
pub enum Refusal {
    /// A name or a variable of a table that is not there.
    Undefined(Name),
    MixedClass,
    BadClass,
    Incompatible,
    BadSize,
    BadArgument,
    BadIndex,
    /// The data of a row, counted from 1, or of no row.
    Data { row: Option<u64>, kind: FaultKind },
    /// A file that is not there.
    NoFile(Text),
    NoHeader(Text),
    HeaderDiffers(Text),
    TooManyRows,
    TooManyFields { row: u64 },
    /// A field, with its row and the name of its variable.
    BadField { row: u64, variable: Text },
    BadText { row: u64, variable: Text },
    FieldNotWhole { row: u64, variable: Text },
    FieldInexact { row: u64, variable: Text },
    /// In functions.
    NoValueLeft,
    NoProgress,
    TooManyTurns,
    BadKey,
    BadValue,
}

/// Why an expression has no value.
#[derive(Drop)]
pub enum Failure {
    /// The line of a fault and the fault, which end the run.
    Refused { line: u32, refusal: Refusal },
    /// The shelf failed at this file.
    Read { file: Text },
    /// More than 2^50 bytes came of this file.
    TooLarge { file: Text },
    /// Two passes met two numbers of records in this file.
    Changed { file: Text, first: u64, now: u64 },
    /// There is no memory.
    Memory,
}

/// A fault of values on a line.
pub fn refused(line: u32, fault: ValueFault) -> Failure
    ensures inside { IsInside result }
    ensures names { (want : Result TallValue refusal.Refusal) → IsDue want fault → Refuses line want result }
{
    let refusal = match fault {
        ValueFault::Undefined(name) => Refusal::Undefined(name),
        ValueFault::MixedClass => Refusal::MixedClass,
        ValueFault::BadClass => Refusal::BadClass,
        ValueFault::Incompatible => Refusal::Incompatible,
        ValueFault::BadSize => Refusal::BadSize,
        ValueFault::BadArgument => Refusal::BadArgument,
        ValueFault::BadIndex => Refusal::BadIndex,
        ValueFault::Data { row, kind } => Refusal::Data { row, kind },
        ValueFault::Memory => return Failure::Memory,
    };
    Failure::Refused { line, refusal }
}

/// An answer on a line.
pub fn at_line(line: u32, answer: Result<ScriptValue, ValueFault>) -> Result<ScriptValue, Failure>
    ensures inside { IfErr result IsInside }
    ensures kept { (n : ℕ) → IfOk answer (IsValue n) → IfOk result (IsValue n) }
    ensures answers { (f : ℕ → Tall) (want : Result TallValue refusal.Refusal) → Comes (value_at f) want answer → AnswersAt (value_at f) line want result }
{
    match answer {
        Ok(value) => Ok(value),
        Err(fault) => Err(refused(line, fault)),
    }
}
