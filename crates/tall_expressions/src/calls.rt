//! Calls of the functions of a script.
ghost use Rattle.std.specs.Prelude.{◌<◌, ◌≤◌, length};
ghost use Rattle.tall_local.specs.declared.functions.ScriptFunction.TheVariants as of;
ghost use Rattle.tall_evaluate.specs.Senses.{ArgumentsFit, CallDoes};
ghost use Rattle.tall_deferred.specs.Values.{IsValue};
ghost use Rattle.tall_environment.specs.Environments.{IsNext};
ghost use Rattle.tall_expressions.specs.Evaluations.{script_senses};

use crate::evaluation::Evaluation;
use std::thread::Threads;
use tall_deferred::{At, ScriptValue, ValueFault};
use tall_environment::{Failure, at_line};
use tall_evaluate::{Argument, Place};
use tall_local::{ScriptFunction, ValueFunction};
use tall_outside::{Gate, Shelf};
use tall_script_calls::{gather_one, make_datastore, map_reduce, read_all, tall_table};

impl<'e, S: Shelf> Evaluation<'e, S> {
    /// A function of values.
    fn call_values(
        &mut self,
        place: Place,
        f: ValueFunction,
        args: &[Argument<'_, ScriptValue>],
    ) -> Result<ScriptValue, Failure>
        requires ready { IsNext place.number self.old.environment.now }
        requires arguments { ArgumentsFit (IsValue (length self.old.environment.now.graph)) args.now }
        ensures { CallDoes (script_senses S.Shelf) place.number place.line (of.OfValues f) args.now self.old self.new result }
    {
        at_line(
            place.line,
            self.environment.apply(
                At {
                    number: place.number,
                    line: place.line,
                },
                f,
                args,
            ),
        )
    }

    /// `tabularTextDatastore`: one more datastore.
    fn make_datastore(
        &mut self,
        place: Place,
        args: &[Argument<'_, ScriptValue>],
    ) -> Result<ScriptValue, Failure>
        requires ready { IsNext place.number self.old.environment.now }
        requires arguments { ArgumentsFit (IsValue (length self.old.environment.now.graph)) args.now }
        ensures { CallDoes (script_senses S.Shelf) place.number place.line of.TabularTextDatastore args.now self.old self.new result }
    {
        make_datastore(
            self.alloc,
            self.shelf,
            self.environment,
            At {
                number: place.number,
                line: place.line,
            },
            args,
        )
    }

    /// `tall`: the variables of a datastore, as nodes more.
    fn tall(
        &mut self,
        place: Place,
        args: &[Argument<'_, ScriptValue>],
    ) -> Result<ScriptValue, Failure>
        requires ready { IsNext place.number self.old.environment.now }
        requires arguments { ArgumentsFit (IsValue (length self.old.environment.now.graph)) args.now }
        ensures { CallDoes (script_senses S.Shelf) place.number place.line of.Tall args.now self.old self.new result }
    {
        at_line(
            place.line,
            tall_table(
                self.environment,
                At {
                    number: place.number,
                    line: place.line,
                },
                args,
            ),
        )
    }

    /// `readall`: a table in memory is its own value.
    fn read_all(
        &mut self,
        place: Place,
        args: &[Argument<'_, ScriptValue>],
    ) -> Result<ScriptValue, Failure>
        requires ready { IsNext place.number self.old.environment.now }
        requires arguments { ArgumentsFit (IsValue (length self.old.environment.now.graph)) args.now }
        ensures { CallDoes (script_senses S.Shelf) place.number place.line of.ReadAll args.now self.old self.new result }
    {
        at_line(
            place.line,
            read_all(
                self.alloc,
                self.environment,
                At {
                    number: place.number,
                    line: place.line,
                },
                args,
            ),
        )
    }

    /// A function that stands in map and reduce functions alone.
    fn refuse_elsewhere(
        &mut self,
        place: Place,
        args: &[Argument<'_, ScriptValue>],
    ) -> Result<ScriptValue, Failure>
        requires ready { IsNext place.number self.old.environment.now }
        ensures { CallDoes (script_senses S.Shelf) place.number place.line of.Elsewhere args.now self.old self.new result }
    {
        at_line(place.line, Err(ValueFault::BadArgument))
    }
}

/// `gather` of one value.
fn gather<R: Threads + Sync, S: Shelf + Send, G: Gate + Sync>(
    rt: &R,
    gate: &G,
    workers: u32,
    evaluation: &mut Evaluation<'_, S>,
    place: Place,
    args: Vec<Argument<'_, ScriptValue>>,
) -> Result<ScriptValue, Failure>
    requires some { 0 < workers }
    requires few { workers ≤ 64 }
    requires ready { IsNext place.number evaluation.old.environment.now }
    requires arguments { ArgumentsFit (IsValue (length evaluation.old.environment.now.graph)) args.items }
    ensures { CallDoes (script_senses S.Shelf) place.number place.line of.Gather args.entry.items evaluation.old evaluation.new result }
{
    gather_one(
        rt,
        evaluation.alloc,
        gate,
        evaluation.shelf,
        evaluation.environment,
        workers,
        At {
            number: place.number,
            line: place.line,
        },
        args,
    )
}

/// `mapreduce`.
fn reduce<R: Threads + Sync, S: Shelf + Send, G: Gate + Sync>(
    rt: &R,
    gate: &G,
    workers: u32,
    evaluation: &mut Evaluation<'_, S>,
    place: Place,
    args: &[Argument<'_, ScriptValue>],
) -> Result<ScriptValue, Failure>
    requires some { 0 < workers }
    requires few { workers ≤ 64 }
    requires ready { IsNext place.number evaluation.old.environment.now }
    requires arguments { ArgumentsFit (IsValue (length evaluation.old.environment.now.graph)) args.now }
    ensures { CallDoes (script_senses S.Shelf) place.number place.line of.MapReduce args.now evaluation.old evaluation.new result }
{
    map_reduce(
        rt,
        evaluation.alloc,
        gate,
        evaluation.shelf,
        evaluation.environment,
        evaluation.functions,
        workers,
        At {
            number: place.number,
            line: place.line,
        },
        args,
    )
}

/// A call of a function, whose arguments have been evaluated. A plain function, as no method can call what starts threads.
pub(crate) fn call_function<R: Threads + Sync, S: Shelf + Send, G: Gate + Sync>(
    rt: &R,
    gate: &G,
    workers: u32,
    evaluation: &mut Evaluation<'_, S>,
    place: Place,
    function: ScriptFunction,
    args: Vec<Argument<'_, ScriptValue>>,
) -> Result<ScriptValue, Failure>
    requires some { 0 < workers }
    requires few { workers ≤ 64 }
    requires ready { IsNext place.number evaluation.old.environment.now }
    requires arguments { ArgumentsFit (IsValue (length evaluation.old.environment.now.graph)) args.items }
    ensures { CallDoes (script_senses S.Shelf) place.number place.line function args.entry.items evaluation.old evaluation.new result }
{
    match function {
        ScriptFunction::OfValues(f) => evaluation.call_values(place, f, args.as_slice()),
        ScriptFunction::TabularTextDatastore => evaluation.make_datastore(place, args.as_slice()),
        ScriptFunction::Tall => evaluation.tall(place, args.as_slice()),
        ScriptFunction::Gather => gather(rt, gate, workers, evaluation, place, args),
        ScriptFunction::MapReduce => reduce(rt, gate, workers, evaluation, place, args.as_slice()),
        ScriptFunction::ReadAll => evaluation.read_all(place, args.as_slice()),
        ScriptFunction::Elsewhere => evaluation.refuse_elsewhere(place, args.as_slice()),
    }
}
