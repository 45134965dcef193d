//! The whole program, over a shelf of files and two sinks.

ghost use Rattle.std.specs.Prelude.{◌≡◌, ◌≤◌, ◌⊎◌, IfSome, Some, map, string_bytes};
ghost use Rattle.tall_answer.specs.CommandAnswers.{AnswersWords, CommandAnswer};
ghost use Rattle.tall_answer.specs.CommandOpenings.{IsAllowedByWords};
ghost use Rattle.tall_outside.specs.Count.{Rose};
ghost use Rattle.tall_words.specs.Commands.{command};
ghost use Rattle.tall_words.specs.Seen.{demo_rows, seen, workers_of};
ghost use Rattle.tall_run.specs.Promises.{Promises};
ghost use Rattle.tall_run.specs.Shelves.{IfShort, IfTold, IsCalm, IsEnd, IsOfShelf, OpensAllowed};
ghost use Rattle.tall_steps.specs.Ends.{AddsFront};
ghost use Rattle.tall_run.specs.Shown.{Ends, ShowsAll};
ghost use Rattle.tall_steps.specs.Statuses.{IsSettled};

use crate::demo::run_demo;
use crate::evaluate::run_script;
use crate::show::{end_with, end_without_memory};
use std::alloc::Global;
use std::thread::Threads;
use tall_lines::usage_line;
use tall_outside::{Gate, Shelf, Sink};
use tall_steps::Status;
use tall_words::command::{Command, WordsFault, read_words};

/// Runs a command.
fn run_command<R: Threads + Sync, S: Shelf + Send, O: Sink, E: Sink, G: Gate + Sync>(
    rt: &R,
    alloc: Global,
    asked: Command,
    gate: &G,
    shelf: &mut S,
    out: &mut O,
    err: &mut E,
) -> Status
    requires some { 1 ≤ workers_of asked }
    requires few { workers_of asked ≤ 64 }
    requires rows { IfSome (demo_rows asked) (λ n. n ≤ 1000000) }
    ensures { Promises S.Shelf (Some (seen asked)) shelf.old shelf.new (Rose (O.faults out.old) (O.faults out.new)) (Rose (E.faults err.old) (E.faults err.new)) result
        (record { text = O.written out.old; line = E.written err.old }) (record { text = O.written out.new; line = E.written err.new }) }
{
    match asked {
        Command::Script { name, workers } => {
            run_script(rt, alloc, name.as_str(), workers, gate, shelf, out, err)
        }
        Command::Demo { rows, workers } => run_demo(rt, alloc, rows, workers, gate, out, err),
    }
}

/// Runs what the words ask for.
fn run_words<R: Threads + Sync, S: Shelf + Send, O: Sink, E: Sink, G: Gate + Sync>(
    rt: &R,
    alloc: Global,
    words: &[String],
    gate: &G,
    shelf: &mut S,
    out: &mut O,
    err: &mut E,
) -> Status
    ensures { Promises S.Shelf (command (map string_bytes words.now)) shelf.old shelf.new (Rose (O.faults out.old) (O.faults out.new)) (Rose (E.faults err.old) (E.faults err.new)) result
        (record { text = O.written out.old; line = E.written err.old }) (record { text = O.written out.new; line = E.written err.new }) }
{
    match read_words(alloc, words) {
        Ok(asked) => run_command(rt, alloc, asked, gate, shelf, out, err),
        Err(WordsFault::Usage) => end_with(err, usage_line().as_bytes(), Status::Usage),
        Err(WordsFault::Memory) => end_without_memory(err),
    }
}

/// Runs the command that the words name, over the files of a shelf: prints the text of its script on `out`, and a
/// fault's line on `err` (docs/LANGUAGE.md, "Commands", "Printing" and "Fault lines").
///
/// `words` has the program's name first. `AnswersWords` says what evaluating the script statement by statement over whole
/// columns gives, which is one answer. What is added to `out` is a front of its text, whatever happens. The demo has files of
/// its own: the shelf is not touched.
pub fn run<R: Threads + Sync, S: Shelf + Send, O: Sink, E: Sink, G: Gate + Sync>(
    rt: &R,
    alloc: Global,
    words: &[String],
    gate: &G,
    shelf: &mut S,
    out: &mut O,
    err: &mut E,
) -> Status
    // The answer, or Memory, where the shelf tells its files, none of them is too long and no call failed.
    ensures complete { IfShort (S.held shelf.old) (command (map string_bytes words.now)) (λ files. IsCalm (command (map string_bytes words.now)) (Rose (S.faults shelf.old) (S.faults shelf.new))
        → (Rose (O.faults out.old) (O.faults out.new) → ⊥) → (Rose (E.faults err.old) (E.faults err.new) → ⊥)
        → (a : CommandAnswer) → AnswersWords files (map string_bytes words.now) a → (result ≡ Status.Memory) ⊎ ShowsAll a result
        (record { text = O.written out.old; line = E.written err.old }) (record { text = O.written out.new; line = E.written err.new })) }

    // Done, Fault and Usage come with the whole answer, even where a call failed on the way.
    ensures settled { IfTold (S.held shelf.old) (command (map string_bytes words.now)) (λ files. IsSettled result
        → (a : CommandAnswer) → AnswersWords files (map string_bytes words.now) a → ShowsAll a result
        (record { text = O.written out.old; line = E.written err.old }) (record { text = O.written out.new; line = E.written err.new })) }

    // What is added to the standard output is a front of the answer's text, whatever happens.
    ensures front { IfTold (S.held shelf.old) (command (map string_bytes words.now)) (λ files. (a : CommandAnswer)
        → AnswersWords files (map string_bytes words.now) a → AddsFront a.text (O.written out.old) (O.written out.new)) }

    // How the run ends, whether or not the shelf tells: each status with its line, and with what explains it.
    ensures ends { Ends (IsEnd S.Shelf (command (map string_bytes words.now)) shelf.old shelf.new) (Rose (O.faults out.old) (O.faults out.new)) (Rose (E.faults err.old) (E.faults err.new))
        result (E.written err.old) (E.written err.new) }

    // No file changes, each is opened as often as this script allows, and none without a script of the shelf.
    ensures held { S.held shelf.new ≡ S.held shelf.old }
    ensures opens { IfTold (S.held shelf.old) (command (map string_bytes words.now)) (λ files. OpensAllowed (λ name n. IsAllowedByWords files (map string_bytes words.now) name n) (S.opened shelf.old) (S.opened shelf.new)) }
    ensures unused { (IsOfShelf (command (map string_bytes words.now)) → ⊥) → shelf.new ≡ shelf.old }
{
    run_words(rt, alloc, words, gate, shelf, out, err)
}
