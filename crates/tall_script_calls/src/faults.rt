//! Faults of reading, as failures of a script (docs/LANGUAGE.md, fault lines).
ghost use Rattle.std.specs.Prelude.{◌≡◌, ◌<◌, IfOk, Some, length};
ghost use Rattle.tall_local.specs.Refusals.{Stop};
ghost use Rattle.tall_walk.specs.Placed.{IsColumn};
ghost use Rattle.tall_script.specs.ReadingFaults.{reading_refusal, stop_of_reading};
ghost use Rattle.tall_script.specs.States.{Store};
ghost use Rattle.tall_environment.specs.Failures.{refusal_seen, stop_of};
ghost use Rattle.tall_script_calls.specs.ReadingFailures.{IsOfKind, IsOfReading};

use std::alloc::{AllocError, Global};
use tall_environment::{Failure, Refusal};
use tall_store::{Datastore, ReadingFault, ReadingKind};
use tall_value::Text;

/// What a fault of a datastore's reading is called, with the name of the file or of the variable.
fn reading_refusal(
    alloc: Global,
    store: &Datastore,
    fault: ReadingFault,
) -> Result<Refusal, AllocError>
    requires file { fault.file < length store.now.files }
    requires column { IsColumn fault.kind (length store.now.names) fault.column }
    ensures named { IfOk result (λ r. refusal_seen r ≡ reading_refusal store.now fault.kind fault.file fault.row fault.column) }
    ensures kind { IfOk result (IsOfKind fault.kind) }
{
    let row = fault.row;
    Ok(match fault.kind {
        ReadingKind::NoFile => Refusal::NoFile(Text::of(alloc, store.file_name(fault.file))?),
        ReadingKind::HeaderDiffers => {
            Refusal::HeaderDiffers(Text::of(alloc, store.file_name(fault.file))?)
        }
        ReadingKind::TooManyRows => Refusal::TooManyRows,
        ReadingKind::TooManyFields => Refusal::TooManyFields { row },
        ReadingKind::BadField => {
            let variable = Text::of(alloc, store.variable_name(fault.column))?;
            Refusal::BadField { row, variable }
        }
        ReadingKind::BadText => {
            let variable = Text::of(alloc, store.variable_name(fault.column))?;
            Refusal::BadText { row, variable }
        }
        ReadingKind::NotWhole => {
            let variable = Text::of(alloc, store.variable_name(fault.column))?;
            Refusal::FieldNotWhole { row, variable }
        }
        ReadingKind::Inexact => {
            let variable = Text::of(alloc, store.variable_name(fault.column))?;
            Refusal::FieldInexact { row, variable }
        }
    })
}

/// The failure of a datastore's reading, on the line of the call that made it; want of memory where a name can't be kept.
pub(crate) fn reading_failure(
    alloc: Global,
    store: &Datastore,
    line: u32,
    fault: ReadingFault,
) -> Failure
    requires file { fault.file < length store.now.files }
    requires column { IsColumn fault.kind (length store.now.names) fault.column }
    ensures stops { (d : Store) (stop : Stop) → d.store ≡ store.now → d.at.line ≡ line → stop_of result ≡ Some stop → stop_of_reading d fault ≡ stop }
    ensures kind { IsOfReading fault.kind result }
{
    match reading_refusal(alloc, store, fault) {
        Ok(refusal) => Failure::Refused { line, refusal },
        Err(_) => Failure::Memory,
    }
}
