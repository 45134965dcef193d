//! The demo, over files of its own.
ghost use Rattle.std.specs.Prelude.{◌≤◌, ℕ};
ghost use Rattle.tall_outside.specs.Count.{Rose};
ghost use Rattle.tall_script.specs.Answers.{Answer, Answers};
ghost use Rattle.tall_answer.specs.CommandAnswers.{script_name};
ghost use Rattle.tall_words.specs.Commands as asks;
ghost use Rattle.tall_words.specs.Demo.{demo_files};
ghost use Rattle.tall_run.specs.Answered.{IsDemoEnd};
ghost use Rattle.tall_steps.specs.Ends.{AddsFront};
ghost use Rattle.tall_run.specs.Shown.{Ends};

use crate::evaluate::run_script;
use crate::show::end_without_memory;
use std::alloc::Global;
use std::thread::Threads;
use tall_outside::{CalmShelf, Gate, Sink};
use tall_steps::Status;
use tall_words::demo::demo_files;

/// Runs the demo's script over its table of so many rows, on a shelf of its own whose calls never fail.
#[tactic(auto, using(crate::proofs::DemoSize::distinct_at))]
pub(crate) fn run_demo<R: Threads + Sync, O: Sink, E: Sink, G: Gate + Sync>(
    rt: &R,
    alloc: Global,
    rows: u32,
    workers: u32,
    gate: &G,
    out: &mut O,
    err: &mut E,
) -> Status
    requires some { 1 ≤ workers }
    requires few { workers ≤ 64 }
    requires rows { rows ≤ 1000000 }
    ensures ends { Ends (IsDemoEnd (demo_files rows) (script_name (asks.run_demo rows workers)) (O.written out.old) (O.written out.new)) (Rose (O.faults out.old) (O.faults out.new))
        (Rose (E.faults err.old) (E.faults err.new)) result (E.written err.old) (E.written err.new) }
    ensures front { (a : Answer) → Answers (demo_files rows) (script_name (asks.run_demo rows workers)) a → AddsFront a.text (O.written out.old) (O.written out.new) }
{
    let Ok(files) = demo_files(alloc, rows) else {
        return end_without_memory(err);
    };
    let Ok(mut shelf) = CalmShelf::new(alloc, files.as_slice()) else {
        return end_without_memory(err);
    };
    run_script(rt, alloc, "demo.m", workers, gate, &mut shelf, out, err)
}
