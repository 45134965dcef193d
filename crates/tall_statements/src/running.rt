//! One statement.
ghost use Rattle.std.specs.Prelude.{◌≡◌, ◌<◌, ◌≤◌, [], ℕ, IfErr, IfOk, Some, length, map, true};
ghost use Rattle.std.specs.List.{All};
ghost use Rattle.tall_grammar.specs.Trees as trees;
ghost use Rattle.tall_grammar.specs.Views.{arg_of, args_of, entry_of, tree_of};
ghost use Rattle.tall_local.specs.StateLaws.{calls_none};
ghost use Rattle.tall_script.specs.Gathers as gathers;
ghost use Rattle.tall_script.specs.OpeningLaws.{is_opening, opens_none};
ghost use Rattle.tall_script.specs.Statements as spec;
ghost use Rattle.tall_script.specs.Statements.{body, set_names, then_do};
ghost use Rattle.tall_evaluate.specs.Orders.{AreInOrder, ArgsAreInOrder, first_number, last_number, own_number};
ghost use Rattle.tall_deferred.specs.Turns.{IsLater};
ghost use Rattle.tall_deferred.specs.Values.{IsValue};
ghost use Rattle.tall_environment.specs.Environments.{IsLast};
ghost use Rattle.tall_environment.specs.Expressions.{AreValues, found_at, setting_in, values_at};
ghost use Rattle.tall_environment.specs.Failures.{Blames};
ghost use Rattle.tall_statements.specs.Answers.{Goes, Runs, TellsDone};
ghost use Rattle.tall_statements.specs.Orders.{IsInOrder, last_of};

use crate::endings::{end_alone, end_assigned, end_named, end_refused};
use crate::properties::end_property;
use std::alloc::Global;
use std::thread::Threads;
use tall_deferred::ScriptValue;
use tall_environment::{Environment, Failure};
use tall_expressions::{script_value, values_given};
use tall_grammar::{Arg, Expr, Form, Function, Statement};
use tall_outside::{Gate, Shelf};
use tall_script_calls::gather_all;
use tall_value::Name;

/// What a statement is run with: the script's functions, the threads that a gather may take, and of the statement the number of the
/// expression before it, its line, and whether it is shown.
#[derive(Clone, Copy)]
struct Run<'e> {
    alloc: Global,
    functions: &'e [Function],
    workers: u32,
    after: u32,
    line: u32,
    shown: bool,
}

/// `name = expression`
fn assigned<R: Threads + Sync, S: Shelf + Send, G: Gate + Sync>(
    rt: &R,
    gate: &G,
    shelf: &mut S,
    environment: &mut Environment,
    run: &Run<'_>,
    name: &str,
    e: &Expr,
) -> Result<Vec<u8>, Failure>
    requires some { 0 < run.now.workers }
    requires few { run.now.workers ≤ 64 }
    requires last { IsLast run.now.after environment.old }
    requires first { run.now.after < first_number (tree_of e.now) }
    requires order { AreInOrder IsLater (tree_of e.now) }
    ensures runs { Runs S.Shelf (own_number (tree_of e.now)) (λ files _ s. body (setting_in files run.now.functions.now) run.now.line run.now.shown (trees.assigned name.now (tree_of e.now)) s) environment.old environment.new shelf.old shelf.new result }
    ensures still { calls_none is_opening (tree_of e.now) ≡ true → shelf.new ≡ shelf.old }
{
    match script_value(
        rt,
        run.alloc,
        gate,
        shelf,
        environment,
        run.functions,
        run.workers,
        e,
    ) {
        Ok(value) => end_assigned(run.alloc, environment, run.shown, name, value),
        Err(failure) => Err(failure),
    }
}

/// An expression alone.
fn bare<R: Threads + Sync, S: Shelf + Send, G: Gate + Sync>(
    rt: &R,
    gate: &G,
    shelf: &mut S,
    environment: &mut Environment,
    run: &Run<'_>,
    e: &Expr,
) -> Result<Vec<u8>, Failure>
    requires some { 0 < run.now.workers }
    requires few { run.now.workers ≤ 64 }
    requires last { IsLast run.now.after environment.old }
    requires first { run.now.after < first_number (tree_of e.now) }
    requires order { AreInOrder IsLater (tree_of e.now) }
    ensures runs { Runs S.Shelf (own_number (tree_of e.now)) (λ files _ s. body (setting_in files run.now.functions.now) run.now.line run.now.shown (trees.bare (tree_of e.now)) s) environment.old environment.new shelf.old shelf.new result }
    ensures still { calls_none is_opening (tree_of e.now) ≡ true → shelf.new ≡ shelf.old }
{
    match script_value(
        rt,
        run.alloc,
        gate,
        shelf,
        environment,
        run.functions,
        run.workers,
        e,
    ) {
        Ok(value) => end_alone(run.alloc, environment, run.shown, e, value),
        Err(failure) => Err(failure),
    }
}

/// `name.Property = expression`
fn property<R: Threads + Sync, S: Shelf + Send, G: Gate + Sync>(
    rt: &R,
    gate: &G,
    shelf: &mut S,
    environment: &mut Environment,
    run: &Run<'_>,
    name: &str,
    changed: &str,
    e: &Expr,
) -> Result<Vec<u8>, Failure>
    requires some { 0 < run.now.workers }
    requires few { run.now.workers ≤ 64 }
    requires last { IsLast run.now.after environment.old }
    requires first { run.now.after < first_number (tree_of e.now) }
    requires order { AreInOrder IsLater (tree_of e.now) }
    ensures runs { Runs S.Shelf (own_number (tree_of e.now)) (λ files _ s. body (setting_in files run.now.functions.now) run.now.line run.now.shown (trees.property name.now changed.now (tree_of e.now)) s) environment.old environment.new shelf.old shelf.new result }
    ensures still { calls_none is_opening (tree_of e.now) ≡ true → shelf.new ≡ shelf.old }
{
    match script_value(
        rt,
        run.alloc,
        gate,
        shelf,
        environment,
        run.functions,
        run.workers,
        e,
    ) {
        Ok(value) => end_property(
            run.alloc,
            environment,
            run.line,
            run.shown,
            name,
            changed,
            &value,
        ),
        Err(failure) => Err(failure),
    }
}

/// The values of a gather, each for its name.
fn gather_values<R: Threads + Sync, S: Shelf + Send, G: Gate + Sync>(
    rt: &R,
    gate: &G,
    shelf: &mut S,
    environment: &mut Environment,
    run: &Run<'_>,
    names: &[Name],
    values: Vec<ScriptValue>,
) -> Result<Vec<u8>, Failure>
    requires some { 0 < run.now.workers }
    requires few { run.now.workers ≤ 64 }
    requires within { All (IsValue (length environment.old.graph)) values.items }
    ensures { (n : ℕ) → IsLast n environment.old → Runs S.Shelf n (λ _ f s. then_do (gathers.gather_all run.now.line (values_at f values.items) s) (λ found t. set_names run.now.shown names.now found [] t)) environment.old environment.new shelf.old shelf.new result }
{
    match gather_all(
        rt,
        run.alloc,
        gate,
        shelf,
        environment,
        run.workers,
        run.line,
        values,
    ) {
        Ok(found) => end_named(run.alloc, environment, run.shown, names, found),
        Err(failure) => Err(failure),
    }
}

/// A gather of as many values as names.
fn gather_into<R: Threads + Sync, S: Shelf + Send, G: Gate + Sync>(
    rt: &R,
    gate: &G,
    shelf: &mut S,
    environment: &mut Environment,
    run: &Run<'_>,
    names: &[Name],
    given: Option<Vec<ScriptValue>>,
) -> Result<Vec<u8>, Failure>
    requires some { 0 < run.now.workers }
    requires few { run.now.workers ≤ 64 }
    requires within { AreValues (length environment.old.graph) given }
    ensures { (n : ℕ) → IsLast n environment.old → Runs S.Shelf n (λ _ f s. spec.gather_into run.now.line run.now.shown names.now (found_at f given) s) environment.old environment.new shelf.old shelf.new result }
{
    match given {
        None => end_refused(environment, run.line),
        Some(values) => {
            if names.len() == values.len() {
                gather_values(rt, gate, shelf, environment, run, names, values)
            } else {
                end_refused(environment, run.line)
            }
        }
    }
}

/// `[name, name] = gather(arguments)`
fn gathered<R: Threads + Sync, S: Shelf + Send, G: Gate + Sync>(
    rt: &R,
    gate: &G,
    shelf: &mut S,
    environment: &mut Environment,
    run: &Run<'_>,
    names: &[Name],
    args: &[Arg],
) -> Result<Vec<u8>, Failure>
    requires some { 0 < run.now.workers }
    requires few { run.now.workers ≤ 64 }
    requires last { IsLast run.now.after environment.old }
    requires order { ArgsAreInOrder IsLater run.now.after (args_of (map arg_of args.now)) }
    ensures { Runs S.Shelf (last_number run.now.after (args_of (map arg_of args.now))) (λ files _ s. body (setting_in files run.now.functions.now) run.now.line run.now.shown (trees.gathered names.now (args_of (map arg_of args.now))) s) environment.old environment.new shelf.old shelf.new result }
{
    let given = values_given(
        rt,
        run.alloc,
        gate,
        shelf,
        environment,
        run.functions,
        run.workers,
        run.after,
        args,
    );
    match given {
        Ok(given) => gather_into(rt, gate, shelf, environment, run, names, given),
        Err(failure) => Err(failure),
    }
}

/// Runs a statement: the text that it shows. The expression with the number `after` stands before it. What was done before a
/// failure stays done, as the definitions have it.
///
/// # Errors
/// A stop of the definitions; `Read`, `TooLarge` and `Changed` of a file, by the counts of the shelf; `Memory`.
pub fn statement<R: Threads + Sync, S: Shelf + Send, G: Gate + Sync>(
    rt: &R,
    alloc: Global,
    gate: &G,
    shelf: &mut S,
    environment: &mut Environment,
    functions: &[Function],
    workers: u32,
    after: u32,
    statement: &Statement,
) -> Result<Vec<u8>, Failure>
    requires some { 0 < workers }
    requires few { workers ≤ 64 }
    requires last { IsLast after environment.old }
    requires order { IsInOrder after (entry_of statement.now).form }
    ensures goes { Goes S.Shelf environment.old environment.new shelf.old shelf.new }
    ensures last { IfOk result (λ _. IsLast (last_of after (entry_of statement.now).form) environment.new) }
    ensures tells { TellsDone S.Shelf shelf.old (λ files s. spec.statement (setting_in files functions.now) (entry_of statement.now) s) environment.old environment.new result }
    ensures blames { IfErr result (λ e. Blames S.Shelf e shelf.old shelf.new) }
    ensures still { opens_none (entry_of statement.now).form ≡ true → shelf.new ≡ shelf.old }
{
    let run = Run {
        alloc,
        functions,
        workers,
        after,
        line: statement.line,
        shown: statement.shown,
    };
    match &statement.form {
        Form::Assign { name, value } => {
            assigned(rt, gate, shelf, environment, &run, name.as_str(), value)
        }
        Form::Gather { names, args } => {
            let (names, args) = (names.as_slice(), args.as_slice());
            gathered(rt, gate, shelf, environment, &run, names, args)
        }
        Form::Property {
            name,
            property: changed,
            value,
        } => {
            let (name, changed) = (name.as_str(), changed.as_str());
            property(rt, gate, shelf, environment, &run, name, changed, value)
        }
        Form::Bare(e) => bare(rt, gate, shelf, environment, &run, e),
    }
}
