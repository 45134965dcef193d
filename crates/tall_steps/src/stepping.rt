//! One step of a session.
ghost use Rattle.std.specs.Prelude.{◌≡◌, ◌∷◌, [], List, false, true, IfErr, IfOk, Ok, Some};
ghost use Rattle.std.specs.List.{All};
ghost use Rattle.tall_value.specs.Names.{are_distinct};
ghost use Rattle.tall_grammar.specs.Trees.{SeenStatement};
ghost use Rattle.tall_outside.specs.Shelf.{Files};
ghost use Rattle.tall_outside.specs.ShelfCounts.{IsLater, shelf_counts};
ghost use Rattle.tall_script.specs.OpeningLaws.{opens_none};
ghost use Rattle.tall_steps.specs.Ends.{Grows};
ghost use Rattle.tall_steps.specs.Sessions.{MayMean, Sense, left_in, program_in, setting_in, state_in};
ghost use Rattle.tall_steps.specs.Steps.{HasEnd, IsStepEnd, LeavesLess, RunsNext, StepOpens, TellsText};

use crate::endings::{Ending, Step};
use crate::failing::ending_at;
use crate::numbers::last_of;
use crate::session::Session;
use std::thread::Threads;
use tall_outside::{Gate, Shelf};
use tall_statements::statement;
use tall_store::Datastore;

/// No datastore lists a file twice. Nothing is done with them.
fn list_no_file_twice(stores: &[Datastore])
    ensures { All (λ d. are_distinct d.files ≡ true) stores.now }
{
    for place in 0..stores.len() {
        let _count = stores[place].file_count();
    }
}

/// Runs the next statement of a session, which has not ended, and gives the text that it shows.
fn run_next<R: Threads + Sync, S: Shelf + Send, G: Gate + Sync>(
    rt: &R,
    gate: &G,
    session: &mut Session,
    shelf: &mut S,
) -> Result<Vec<u8>, Ending>
    requires runs { session.old.has_ended ≡ false }
    requires next { (entry : SeenStatement) × (rest : List SeenStatement) × (left_in session.old ≡ entry ∷ rest) }
    ensures { RunsNext S.Shelf session.old session.new shelf.old shelf.new result }
{
    list_no_file_twice(session.environment.stores());
    let next = &session.script.statements.as_slice()[session.place];
    let last = last_of(session.after, &next.form);
    let ran = statement(
        rt,
        session.alloc,
        gate,
        shelf,
        &mut session.environment,
        session.script.functions.as_slice(),
        session.workers,
        session.after,
        next,
    );
    session.environment.has_a_sense();
    match ran {
        Ok(text) => {
            session.after = last;
            session.place += 1;
            Ok(text)
        }
        Err(failure) => {
            session.has_ended = true;
            Err(ending_at(session.alloc, failure))
        }
    }
}

impl Session {
    /// Runs one statement, and gives the text that it shows.
    ///
    /// A statement that makes no datastore, gathers nothing and runs no mapreduce leaves the shelf as it was.
    ///
    /// # Errors
    /// `Line` with the status Fault and the line of the fault that the statement has; or with the status Read where a call
    /// on a file failed, a file gave too many bytes or changed. `Memory` for want of memory. After an error every later call
    /// answers `Ended`.
    pub fn step<R: Threads + Sync, S: Shelf + Send, G: Gate + Sync>(
        &mut self,
        rt: &R,
        gate: &G,
        shelf: &mut S,
    ) -> Result<Step, Ending>
        ensures program { program_in self.new ≡ program_in self.old }
        ensures ended { self.old.has_ended ≡ true → (result ≡ Ok Step.Ended) × (self.new ≡ self.old) × (shelf.new ≡ shelf.old) }
        ensures only_ended { result ≡ Ok Step.Ended → self.old.has_ended ≡ true }
        ensures finished { self.old.has_ended ≡ false → left_in self.old ≡ [] → (result ≡ Ok Step.Finished) × (self.new ≡ self.old) × (shelf.new ≡ shelf.old) }
        ensures only_finished { result ≡ Ok Step.Finished → (self.old.has_ended ≡ false) × (left_in self.old ≡ []) }
        ensures stops { IfErr result (λ _. self.new.has_ended ≡ true) }
        ensures goes_on { IfOk result (λ _. self.new.has_ended ≡ self.old.has_ended) }
        ensures less { LeavesLess (left_in self.old) (left_in self.new) result }
        ensures ends { IfErr result (HasEnd (IsStepEnd S.Shelf self.old self.new shelf.old shelf.new)) }
        ensures text { (files : Files) → S.held shelf.old ≡ Some files → (sense : Sense) → MayMean files self.new sense
            → TellsText (setting_in files self.old) (left_in self.old) (left_in self.new) (state_in sense self.old) (state_in sense self.new) result }
        ensures meant { (files : Files) (sense : Sense) → MayMean files self.new sense → MayMean files self.old sense }
        ensures some { (files : Files) → (sense : Sense) × MayMean files self.new sense }
        ensures held { S.held shelf.new ≡ S.held shelf.old }
        ensures grows { Grows (S.opened shelf.old) (S.opened shelf.new) }
        ensures later { IsLater (shelf_counts S.Shelf shelf.old) (shelf_counts S.Shelf shelf.new) }
        ensures opens { self.old.has_ended ≡ false → (files : Files) → S.held shelf.old ≡ Some files → (sense : Sense) → MayMean files self.new sense
            → StepOpens (setting_in files self.old) (left_in self.old) (state_in sense self.old) (S.opened shelf.old) (S.opened shelf.new) }
        ensures quiet { (entry : SeenStatement) (rest : List SeenStatement) → left_in self.old ≡ entry ∷ rest → opens_none entry.form ≡ true → shelf.new ≡ shelf.old }
    {
        self.environment.has_a_sense();
        if self.has_ended {
            return Ok(Step::Ended);
        }
        if self.place >= self.script.statements.as_slice().len() {
            return Ok(Step::Finished);
        }
        match run_next(rt, gate, self, shelf) {
            Ok(text) => Ok(Step::Text(text)),
            Err(ending) => Err(ending),
        }
    }
}
