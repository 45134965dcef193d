//! The script of a name, from its file to its end.
ghost use Rattle.std.specs.Prelude.{◌≡◌, ℕ, ◌≤◌, List, Some};
ghost use Rattle.tall_grammar.specs.Refusals as parse;
ghost use Rattle.tall_grammar.specs.Views.{program_of};
ghost use Rattle.tall_outside.specs.Count.{Rose};
ghost use Rattle.tall_outside.specs.Shelf.{Files};
ghost use Rattle.tall_script.specs.AllowedOpenings.{IsAllowed};
ghost use Rattle.tall_script.specs.Answers.{Answer, Answers};
ghost use Rattle.tall_script.specs.Runs.{run};
ghost use Rattle.tall_script.specs.States.{times_allowed};
ghost use Rattle.tall_steps.specs.Ends.{AddsFront, AreQuiet};
ghost use Rattle.tall_steps.specs.Progress.{IsRunEnded, OpensAtMost};
ghost use Rattle.tall_run.specs.Answered.{IsAnswerEnd, IsAnswered};
ghost use Rattle.tall_run.specs.Shelves.{OpensAllowed};
ghost use Rattle.tall_run.specs.Shown.{Ends};

use crate::script::read_script;
use crate::show::{close, end_unwritten, end_without_memory};
use std::alloc::Global;
use std::thread::Threads;
use tall_grammar::Script;
use tall_outside::{Gate, Shelf, Sink, WriteFault};
use tall_steps::{Ending, RunEnd, Session, Status, run_statements};

/// Runs the statements of a script, and writes the text of each.
fn run_all<R: Threads + Sync, S: Shelf + Send, O: Sink, G: Gate + Sync>(
    rt: &R,
    alloc: Global,
    script: Script,
    workers: u32,
    gate: &G,
    shelf: &mut S,
    out: &mut O,
) -> RunEnd
    requires script { (bytes : List ℕ) × parse.Parses bytes (parse.read (program_of script)) }
    requires some { 1 ≤ workers }
    requires few { workers ≤ 64 }
    ensures ended { IsRunEnded S.Shelf (program_of script) shelf.old shelf.new (O.written out.old) (O.written out.new) (Rose (O.faults out.old) (O.faults out.new)) result }
    ensures front { (files : Files) → S.held shelf.old ≡ Some files → AddsFront (run files (program_of script)).text (O.written out.old) (O.written out.new) }
    ensures opens { (files : Files) → S.held shelf.old ≡ Some files → OpensAtMost (λ name. times_allowed name (run files (program_of script)).state.opened) (S.opened shelf.old) (S.opened shelf.new) }
    ensures quiet { AreQuiet (program_of script).statements → shelf.new ≡ shelf.old }
    ensures held { S.held shelf.new ≡ S.held shelf.old }
{
    match Session::new(alloc, script, workers) {
        Ok(mut session) => run_statements(rt, gate, &mut session, shelf, out),
        Err(_) => RunEnd::Stopped(Ending::Memory),
    }
}

/// Runs the script of this name, and writes the text of each of its statements.
fn evaluate<R: Threads + Sync, S: Shelf + Send, O: Sink, G: Gate + Sync>(
    rt: &R,
    alloc: Global,
    name: &str,
    workers: u32,
    gate: &G,
    shelf: &mut S,
    out: &mut O,
) -> RunEnd
    requires some { 1 ≤ workers }
    requires few { workers ≤ 64 }
    ensures answered { IsAnswered S.Shelf name.now shelf.old shelf.new (O.written out.old) (O.written out.new) (Rose (O.faults out.old) (O.faults out.new)) result }
    ensures front { (files : Files) → S.held shelf.old ≡ Some files → (a : Answer) → Answers files name.now a → AddsFront a.text (O.written out.old) (O.written out.new) }
    ensures held { S.held shelf.new ≡ S.held shelf.old }
    ensures opens { (files : Files) → S.held shelf.old ≡ Some files → OpensAllowed (IsAllowed files name.now) (S.opened shelf.old) (S.opened shelf.new) }
{
    match read_script(alloc, name, shelf) {
        Ok(script) => run_all(rt, alloc, script, workers, gate, shelf, out),
        Err(ending) => RunEnd::Stopped(ending),
    }
}

/// Runs the script of this name, prints what its statements show on `out`, and a fault's line on `err`.
pub(crate) fn run_script<R: Threads + Sync, S: Shelf + Send, O: Sink, E: Sink, G: Gate + Sync>(
    rt: &R,
    alloc: Global,
    name: &str,
    workers: u32,
    gate: &G,
    shelf: &mut S,
    out: &mut O,
    err: &mut E,
) -> Status
    requires some { 1 ≤ workers }
    requires few { workers ≤ 64 }
    ensures ends { Ends (IsAnswerEnd S.Shelf name.now shelf.old shelf.new (O.written out.old) (O.written out.new)) (Rose (O.faults out.old) (O.faults out.new)) (Rose (E.faults err.old) (E.faults err.new))
        result (E.written err.old) (E.written err.new) }
    ensures front { (files : Files) → S.held shelf.old ≡ Some files → (a : Answer) → Answers files name.now a → AddsFront a.text (O.written out.old) (O.written out.new) }
    ensures held { S.held shelf.new ≡ S.held shelf.old }
    ensures opens { (files : Files) → S.held shelf.old ≡ Some files → OpensAllowed (IsAllowed files name.now) (S.opened shelf.old) (S.opened shelf.new) }
{
    match evaluate(rt, alloc, name, workers, gate, shelf, out) {
        RunEnd::Finished => Status::Done,
        RunEnd::Stopped(ending) => close(ending, err),
        RunEnd::Unwritten(WriteFault::Failed) => end_unwritten(err),
        RunEnd::Unwritten(WriteFault::Memory) => end_without_memory(err),
    }
}
