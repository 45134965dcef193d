//! Expressions of a script.
ghost use Rattle.std.specs.Prelude.{◌≡◌, ◌<◌, ◌≤◌, IfErr, IfOk, length, map, true};
ghost use Rattle.std.specs.Thread.{IsSync};
ghost use Rattle.tall_grammar.specs.Views.{arg_of, args_of, tree_of};
ghost use Rattle.tall_local.specs.StateLaws.{calls_none};
ghost use Rattle.tall_script.specs.OpeningLaws.{is_opening};
ghost use Rattle.tall_script.specs.ScriptLanguage.{script_value};
ghost use Rattle.tall_evaluate.specs.Senses.{ArgumentsFit, CallDoes};
ghost use Rattle.tall_expressions.specs.Evaluations.{script_senses};
ghost use Rattle.tall_evaluate.specs.Orders.{AreInOrder, ArgsAreInOrder, first_number, last_number, own_number};
ghost use Rattle.tall_deferred.specs.Turns.{IsLater};
ghost use Rattle.tall_deferred.specs.Values.{IsValue, value_at};
ghost use Rattle.tall_environment.specs.Environments.{IsLast, IsNext};
ghost use Rattle.tall_environment.specs.Expressions.{AreValues, Tells, found_at, given_values, setting_in};
ghost use Rattle.tall_environment.specs.Failures.{Blames};
ghost use Rattle.tall_environment.specs.Moves.{Moves};

use crate::arguments::values_kept;
use crate::calls::call_function;
use crate::evaluation::Evaluation;
use std::alloc::Global;
use std::thread::Threads;
use tall_deferred::ScriptValue;
use tall_environment::{Environment, Failure};
use tall_evaluate::{Argument, Place, evaluate, evaluate_arguments};
use tall_grammar::{Arg, Expr, Function};
use tall_local::ScriptFunction;
use tall_outside::{Gate, Shelf};

/// The value of an expression of a script, or why there is none. What was done before a failure stays done, as the definitions
/// have it.
///
/// # Errors
/// A stop of the definitions; `Read`, `TooLarge` and `Changed` of a file, by the counts of the shelf; `Memory`.
pub fn script_value<'e, R: Threads + Sync, S: Shelf + Send, G: Gate + Sync>(
    rt: &R,
    alloc: Global,
    gate: &G,
    shelf: &'e mut S,
    environment: &'e mut Environment,
    functions: &'e [Function],
    workers: u32,
    e: &Expr,
) -> Result<ScriptValue, Failure>
    requires some { 0 < workers }
    requires few { workers ≤ 64 }
    requires next { IsNext (first_number (tree_of e.now)) environment.old }
    requires order { AreInOrder IsLater (tree_of e.now) }
    ensures moves { Moves S.Shelf environment.old environment.new shelf.old shelf.new }
    ensures within { IfOk result (IsValue (length environment.new.graph)) }
    ensures last { IfOk result (λ _. IsLast (own_number (tree_of e.now)) environment.new) }
    ensures tells { Tells S.Shelf shelf.old value_at (λ files f s. script_value (setting_in files functions.now) (tree_of e.now) s) environment.old environment.new result }
    ensures blames { IfErr result (λ e. Blames S.Shelf e shelf.old shelf.new) }
    ensures still { calls_none is_opening (tree_of e.now) ≡ true → shelf.new ≡ shelf.old }
{
    let mut evaluation = Evaluation {
        alloc,
        shelf,
        environment,
        functions,
    };
    evaluate(
        alloc,
        &mut evaluation,
        &|evaluation: &mut Evaluation<'_, S>, place: Place, function: ScriptFunction, args: Vec<
            Argument<'_, ScriptValue>,
        >| -> Result<ScriptValue, Failure>
            requires threads { IsSync R.row × IsSync G.row }
            requires some { 0 < workers }
            requires few { workers ≤ 64 }
            requires ready { IsNext place.number evaluation.old.environment.now }
            requires arguments { ArgumentsFit (IsValue (length evaluation.old.environment.now.graph)) args.items }
            ensures { CallDoes (script_senses S.Shelf) place.number place.line function args.entry.items evaluation.old evaluation.new result }
        { call_function(rt, gate, workers, evaluation, place, function, args) },
        e,
    )
}

/// The values of arguments, from left to right; None where one of them is no value. The expression with the number `after` stands
/// before them.
///
/// # Errors
/// As `script_value`.
pub fn values_given<R: Threads + Sync, S: Shelf + Send, G: Gate + Sync>(
    rt: &R,
    alloc: Global,
    gate: &G,
    shelf: &mut S,
    environment: &mut Environment,
    functions: &[Function],
    workers: u32,
    after: u32,
    args: &[Arg],
) -> Result<Option<Vec<ScriptValue>>, Failure>
    requires some { 0 < workers }
    requires few { workers ≤ 64 }
    requires last { IsLast after environment.old }
    requires order { ArgsAreInOrder IsLater after (args_of (map arg_of args.now)) }
    ensures moves { Moves S.Shelf environment.old environment.new shelf.old shelf.new }
    ensures within { IfOk result (λ found. AreValues (length environment.new.graph) found) }
    ensures last { IfOk result (λ _. IsLast (last_number after (args_of (map arg_of args.now))) environment.new) }
    ensures tells { Tells S.Shelf shelf.old found_at (λ files f s. given_values (setting_in files functions.now) (args_of (map arg_of args.now)) s) environment.old environment.new result }
    ensures blames { IfErr result (λ e. Blames S.Shelf e shelf.old shelf.new) }
{
    let mut evaluation = Evaluation {
        alloc,
        shelf,
        environment,
        functions,
    };
    match evaluate_arguments(
        alloc,
        &mut evaluation,
        &|evaluation: &mut Evaluation<'_, S>, place: Place, function: ScriptFunction, args: Vec<
            Argument<'_, ScriptValue>,
        >| -> Result<ScriptValue, Failure>
            requires threads { IsSync R.row × IsSync G.row }
            requires some { 0 < workers }
            requires few { workers ≤ 64 }
            requires ready { IsNext place.number evaluation.old.environment.now }
            requires arguments { ArgumentsFit (IsValue (length evaluation.old.environment.now.graph)) args.items }
            ensures { CallDoes (script_senses S.Shelf) place.number place.line function args.entry.items evaluation.old evaluation.new result }
        { call_function(rt, gate, workers, evaluation, place, function, args) },
        false,
        after,
        args,
    ) {
        Ok(given) => values_kept(alloc, given),
        Err(failure) => Err(failure),
    }
}
