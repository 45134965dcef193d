//! The statements of a script, one after another.
ghost use Rattle.std.specs.Prelude.{◌≡◌, ◌≤◌, Some};
ghost use Rattle.tall_outside.specs.Count.{Rose};
ghost use Rattle.tall_outside.specs.Shelf.{Files};
ghost use Rattle.tall_outside.specs.ShelfCounts.{IsLater, shelf_counts};
ghost use Rattle.tall_script.specs.Runs.{run};
ghost use Rattle.tall_script.specs.States.{times_allowed};
ghost use Rattle.tall_steps.specs.Ends.{AddsFront, AreQuiet, Grows};
ghost use Rattle.tall_steps.specs.Progress.{IsRunEnded, OpensAtMost};
ghost use Rattle.tall_steps.specs.Sessions.{program_in, session_of};

use crate::endings::{Ending, Step};
use crate::session::Session;
use crate::write::write_all;
use std::thread::Threads;
use tall_outside::{Gate, Shelf, Sink, WriteFault};

/// Where the statements of a script come to.
#[derive(Drop)]
pub enum RunEnd {
    /// All of them ran.
    Finished,
    /// One of them ended the run.
    Stopped(Ending),
    /// The text of one could not be written.
    Unwritten(WriteFault),
}

/// Runs all statements of a new session, and writes the text of each until all of it is taken.
pub fn run_statements<R: Threads + Sync, S: Shelf + Send, O: Sink, G: Gate + Sync>(
    rt: &R,
    gate: &G,
    session: &mut Session,
    shelf: &mut S,
    out: &mut O,
) -> RunEnd
    requires { session.old ≡ session_of session.old.script }
    ensures ended { IsRunEnded S.Shelf (program_in session.old) shelf.old shelf.new (O.written out.old) (O.written out.new) (Rose (O.faults out.old) (O.faults out.new)) result }
    ensures front { (files : Files) → S.held shelf.old ≡ Some files → AddsFront (run files (program_in session.old)).text (O.written out.old) (O.written out.new) }
    ensures opens { (files : Files) → S.held shelf.old ≡ Some files → OpensAtMost (λ name. times_allowed name (run files (program_in session.old)).state.opened) (S.opened shelf.old) (S.opened shelf.new) }
    ensures quiet { AreQuiet (program_in session.old).statements → shelf.new ≡ shelf.old }
    ensures held { S.held shelf.new ≡ S.held shelf.old }
    ensures grows { Grows (S.opened shelf.old) (S.opened shelf.new) }
    ensures later { IsLater (shelf_counts S.Shelf shelf.old) (shelf_counts S.Shelf shelf.new) }
    ensures written { O.faults out.old ≤ O.faults out.new }
{
    tall_script::laws::datastores_keep_their_places();
    loop {
        match session.step(rt, gate, shelf) {
            Ok(Step::Text(text)) => {
                if let Err(fault) = write_all(out, text.as_slice()) {
                    return RunEnd::Unwritten(fault);
                }
            }
            Ok(Step::Finished) => return RunEnd::Finished,
            Ok(Step::Ended) => unreachable!(),
            Err(ending) => return RunEnd::Stopped(ending),
        }
    }
}
