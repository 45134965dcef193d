//! What a call of a function has so far, and the values of its expressions.
ghost use Rattle.std.specs.Prelude.{◌≡◌, Ok, true};
ghost use Rattle.tall_grammar.specs.Views.{tree_of};
ghost use Rattle.std.specs.Option.{is_some};
ghost use Rattle.tall_local.specs.Calls.{local_value};
ghost use Rattle.tall_local.specs.Expressions.{Valued, gives, value};
ghost use Rattle.tall_local.specs.Locals as locals;
ghost use Rattle.tall_local.specs.Memory.{scalar};
ghost use Rattle.tall_value.specs.Cells.{seen};
ghost use Rattle.tall_local.specs.Locals.{Held, Locals, function_language, memory_of};
ghost use Rattle.tall_evaluate.specs.Senses.{Agrees, CallDoes, DoesValue};
ghost use Rattle.tall_fun.specs.Failures.{stop_of};
ghost use Rattle.tall_fun.specs.Frames.{frame_state};
ghost use Rattle.tall_fun.specs.Scopes.{scope_senses};
ghost use Rattle.tall_fun.specs.Values.{GivesHeld, held_seen};

use crate::failures::{Failure, no_memory};
use crate::names::Names;
use crate::plain::plain_value;
use crate::scope::Scope;
use crate::turns::Turns;
use crate::values::{LocalValue, copied, kept, kept_scalar};
use std::alloc::Global;
use tall_column::Column;
use tall_evaluate::{Argument, Place, evaluate};
use tall_grammar::Expr;
use tall_kv::Pairs;
use tall_local::LocalFunction;
use tall_memory::MemoryFault;
use tall_value::Cell;

/// The names of a call, how many values its iterator has given, the turns of loops that began, and the store.
#[derive(Drop)]
pub(crate) struct Frame<'b> {
    pub(crate) alloc: Global,
    pub(crate) names: Names<'b>,
    pub(crate) given: usize,
    pub(crate) turns: Turns,
    pub(crate) store: Pairs,
}

/// A copy of a value in memory.
fn copy_of<'b>(alloc: Global, v: &LocalValue<'_>) -> Result<LocalValue<'b>, MemoryFault>
    requires { is_some (memory_of (held_seen v.now)) ≡ true }
    ensures { GivesHeld (Ok (held_seen v.now)) result }
{
    match v.memory() {
        Some(r) => kept(copied(alloc, &r)),
        None => Err(MemoryFault::Memory),
    }
}

/// A value that borrows nothing of the names.
fn owned<'b>(alloc: Global, v: LocalValue<'_>) -> Result<LocalValue<'b>, MemoryFault>
    ensures { GivesHeld (Ok (held_seen v.entry)) result }
{
    match v {
        LocalValue::Kept(m) => Ok(LocalValue::Kept(m)),
        LocalValue::Column(x) => copy_of(alloc, &LocalValue::Column(x)),
        LocalValue::Table(t) => copy_of(alloc, &LocalValue::Table(t)),
        LocalValue::Texts(texts) => copy_of(alloc, &LocalValue::Texts(texts)),
        LocalValue::Store => Ok(LocalValue::Store),
        LocalValue::Iterator => Ok(LocalValue::Iterator),
        LocalValue::NoValue => Ok(LocalValue::NoValue),
    }
}

/// An answer that borrows nothing of the names.
fn owned_answer<'b>(
    alloc: Global,
    answer: Result<LocalValue<'_>, Failure>,
) -> Result<LocalValue<'b>, Failure>
    ensures { (want : Valued Held Locals) (t : Locals) → Agrees held_seen stop_of want answer.entry t → Agrees held_seen stop_of want result t }
{
    match answer {
        Ok(v) => match owned(alloc, v) {
            Ok(v) => Ok(v),
            Err(_) => Err(no_memory()),
        },
        Err(failure) => Err(failure),
    }
}

#[tactic(auto, using(crate::proofs::FrameLemmas::any_order))]
/// The value of an expression in a scope.
fn evaluated<'n>(scope: &mut Scope<'n>, e: &Expr) -> Result<LocalValue<'n>, Failure>
    ensures { DoesValue scope_senses (λ key_values s. value (function_language key_values) (tree_of e.now) s) scope.old scope.new result }
{
    let alloc = scope.alloc;
    evaluate(
        alloc,
        scope,
        &|scope: &mut Scope<'_>, place: Place, function: LocalFunction, arguments: Vec<
            Argument<'_, LocalValue<'_>>,
        >| -> Result<LocalValue<'_>, Failure>
            ensures { CallDoes scope_senses place.number place.line function arguments.entry.items scope.old scope.new result }
        { scope.call(place, function, arguments) },
        e,
    )
}

/// The value of an expression over the values of the iterator, kept: it borrows nothing of the names.
pub(crate) fn value_of<'b>(
    values: &Column,
    frame: &mut Frame<'_>,
    e: &Expr,
) -> Result<LocalValue<'b>, Failure>
    ensures { Agrees held_seen stop_of (local_value values.now.cells (tree_of e.now) (frame_state frame.old)) result (frame_state frame.new) }
{
    let mut given = frame.given;
    match plain_value(&frame.names, values, &mut given, e) {
        Some(c) => {
            let answer = kept_answer(frame.alloc, &c);
            frame.given = given;
            answer
        }
        None => walked(values, frame, e),
    }
}

/// A scalar, kept; or no memory.
fn kept_answer<'b>(alloc: Global, c: &Cell<'_>) -> Result<LocalValue<'b>, Failure>
    ensures { (t : Locals) → Agrees held_seen stop_of (gives (locals.value (scalar (seen c.now))) t) result t }
{
    match kept_scalar(alloc, c) {
        Ok(v) => Ok(v),
        Err(_) => Err(no_memory()),
    }
}

/// The value of an expression by the walk over all expressions.
fn walked<'b>(values: &Column, frame: &mut Frame<'_>, e: &Expr) -> Result<LocalValue<'b>, Failure>
    ensures { Agrees held_seen stop_of (local_value values.now.cells (tree_of e.now) (frame_state frame.old)) result (frame_state frame.new) }
{
    let mut scope = Scope {
        alloc: frame.alloc,
        names: &frame.names,
        values,
        given: frame.given,
        turns: frame.turns.count(),
        pairs: &frame.store,
    };
    let answer = owned_answer(frame.alloc, evaluated(&mut scope, e));
    let given = scope.given;
    frame.given = given;
    answer
}
