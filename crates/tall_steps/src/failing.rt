//! Failures of statements as ends of a run.
ghost use Rattle.std.specs.Prelude.{◌≡◌, IfOk, Some};
ghost use Rattle.tall_environment.specs.Failures as failures;
ghost use Rattle.tall_lines.specs.Seen as lines;
ghost use Rattle.tall_steps.specs.Ends.{End, line_of, status_of};
ghost use Rattle.tall_steps.specs.Failing.{end_of, name_in};
ghost use Rattle.tall_steps.specs.Steps.{HasEnd, IsEndingOf};

use crate::endings::Ending;
use crate::statuses::Status;
use std::alloc::{AllocError, Global};
use tall_environment::{Failure, Refusal};
use tall_lines::{Refusal as Shown, cannot_read_line, changed_line, stop_line, too_large_line};

/// The ending with a line, or want of memory for the line.
pub fn with_line(status: Status, line: Result<Vec<u8>, AllocError>) -> Ending
    ensures { (e : End) → status ≡ status_of e → IfOk line (λ text. text.items ≡ line_of e) → IsEndingOf e result }
{
    match line {
        Ok(line) => Ending::Line { status, line },
        Err(_) => Ending::Memory,
    }
}

/// The name, the file or the variable that a refusal names; nothing where it names none.
fn name_in(refusal: &Refusal) -> &str
    ensures { result.now ≡ name_in refusal.now }
{
    match refusal {
        Refusal::Undefined(name) => name.as_str(),
        Refusal::NoFile(file) => file.as_str(),
        Refusal::NoHeader(file) => file.as_str(),
        Refusal::HeaderDiffers(file) => file.as_str(),
        Refusal::BadField { variable, .. } => variable.as_str(),
        Refusal::BadText { variable, .. } => variable.as_str(),
        Refusal::FieldNotWhole { variable, .. } => variable.as_str(),
        Refusal::FieldInexact { variable, .. } => variable.as_str(),
        _ => "",
    }
}

/// A refusal as its line takes it.
fn shown(refusal: &Refusal) -> Shown<'_>
    ensures { lines.refusal_seen result ≡ failures.refusal_seen refusal.now }
{
    let name = name_in(refusal);
    let variable = name;
    match *refusal {
        Refusal::Undefined(_) => Shown::Undefined(name),
        Refusal::MixedClass => Shown::MixedClass,
        Refusal::BadClass => Shown::BadClass,
        Refusal::Incompatible => Shown::Incompatible,
        Refusal::BadSize => Shown::BadSize,
        Refusal::BadArgument => Shown::BadArgument,
        Refusal::BadIndex => Shown::BadIndex,
        Refusal::Data { row, kind } => Shown::Data { row, kind },
        Refusal::NoFile(_) => Shown::NoFile(name),
        Refusal::NoHeader(_) => Shown::NoHeader(name),
        Refusal::HeaderDiffers(_) => Shown::HeaderDiffers(name),
        Refusal::TooManyRows => Shown::TooManyRows,
        Refusal::TooManyFields { row } => Shown::TooManyFields { row },
        Refusal::BadField { row, .. } => Shown::BadField { row, variable },
        Refusal::BadText { row, .. } => Shown::BadText { row, variable },
        Refusal::FieldNotWhole { row, .. } => Shown::FieldNotWhole { row, variable },
        Refusal::FieldInexact { row, .. } => Shown::FieldInexact { row, variable },
        Refusal::NoValueLeft => Shown::EndOfValues,
        Refusal::NoProgress => Shown::NoProgress,
        Refusal::TooManyTurns => Shown::TooManyTurns,
        Refusal::BadKey => Shown::KeyClass,
        Refusal::BadValue => Shown::ValueClass,
    }
}

/// The ending of a failure, with its line.
fn ending_of(alloc: Global, failure: &Failure) -> Ending
    ensures { HasEnd (λ e. end_of failure.now ≡ Some e) result }
{
    match failure {
        Failure::Refused { line, refusal } => with_line(
            Status::Fault,
            stop_line(alloc, *line, shown(refusal)),
        ),
        Failure::Read { file } => {
            with_line(Status::Read, cannot_read_line(alloc, file.as_str()))
        }
        Failure::TooLarge { file } => {
            with_line(Status::Read, too_large_line(alloc, file.as_str()))
        }
        Failure::Changed { file, first, now } => with_line(
            Status::Read,
            changed_line(alloc, file.as_str(), *first, *now),
        ),
        Failure::Memory => Ending::Memory,
    }
}

/// The end of a run at a failure, with its line (docs/LANGUAGE.md, "Fault lines").
pub(crate) fn ending_at(alloc: Global, failure: Failure) -> Ending
    ensures { HasEnd (λ e. end_of failure ≡ Some e) result }
{
    ending_of(alloc, &failure)
}
