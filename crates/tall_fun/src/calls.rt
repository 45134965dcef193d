//! Calls of map and reduce functions.
ghost use Rattle.std.specs.Prelude.{◌≡◌, ◌∷◌, [], IfOk, List};
ghost use Rattle.tall_grammar.specs.Views.{routine_of};
ghost use Rattle.tall_local.specs.Calls.{call_map, call_of, call_reduce, parameters, result_of, run_steps};
ghost use Rattle.tall_local.specs.Locals.{Held};
ghost use Rattle.tall_local.specs.Locals as locals;
ghost use Rattle.tall_value.specs.Cells.{seen};
ghost use Rattle.tall_fun.specs.Faults.{CallsTo};
ghost use Rattle.tall_fun.specs.Frames.{call_state};
ghost use Rattle.tall_fun.specs.Values.{held_seen};

use crate::faults::{FunFault, fault_of};
use crate::frame::Frame;
use crate::names::Names;
use crate::run::run_steps;
use crate::turns::Turns;
use crate::values::{LocalValue, kept_scalar};
use std::alloc::{AllocError, Global};
use std::mem;
use tall_column::{Column, Table};
use tall_grammar::Function;
use tall_kv::Pairs;
use tall_value::{Cell, Class, Name};

/// Gives the first of the parameters its value, and tells those that are left.
fn put_parameter<'b>(
    names: &mut Names<'b>,
    params: &'b [Option<Name>],
    value: LocalValue<'b>,
) -> Result<&'b [Option<Name>], AllocError>
    ensures { (rest : List Held) → IfOk result (λ left. parameters params.now (held_seen value.entry ∷ rest) names.old ≡ parameters left.now rest names.new) }
{
    match params {
        [] => Ok(params),
        [first, left @ ..] => {
            put_named(names, first, value)?;
            Ok(left)
        }
    }
}

/// Gives a parameter its value, if it has a name.
fn put_named<'b>(
    names: &mut Names<'b>,
    param: &'b Option<Name>,
    value: LocalValue<'b>,
) -> Result<(), AllocError>
    ensures { IfOk result (λ _. parameters (param.now ∷ []) (held_seen value.entry ∷ []) names.old ≡ names.new) }
{
    match param {
        Some(name) => names.put(name.as_str(), value),
        None => Ok(()),
    }
}

/// The names of a call: its parameters with what they stand for.
fn names_of<'b>(
    alloc: Global,
    params: &'b [Option<Name>],
    first: LocalValue<'b>,
    second: LocalValue<'b>,
) -> Result<Names<'b>, AllocError>
    ensures { IfOk result (λ names. parameters params.now (held_seen first.entry ∷ held_seen second.entry ∷ locals.store ∷ []) [] ≡ names) }
{
    let mut names = Names::new(alloc);
    let params = put_parameter(&mut names, params, first)?;
    let params = put_parameter(&mut names, params, second)?;
    put_parameter(&mut names, params, LocalValue::Store)?;
    Ok(names)
}

/// Runs the statements of a function over its names and the values of its iterator.
fn run_call<'b>(
    alloc: Global,
    function: &'b Function,
    names: Names<'b>,
    values: &Column,
    store: &mut Pairs,
) -> Result<(), FunFault>
    ensures { CallsTo (result_of (run_steps values.now.cells (routine_of function.now).body (call_state names.entry store.old))) store.new result }
{
    let turns = Turns::new();
    let kept = mem::replace(store, Pairs::new(alloc));
    let mut frame = Frame {
        alloc,
        names,
        given: 0,
        turns,
        store: kept,
    };
    let body = function.body.as_slice();
    let ran = run_steps(values, &mut frame, body);
    *store = frame.store;
    match ran {
        Ok(()) => Ok(()),
        Err(failure) => Err(fault_of(failure)),
    }
}

/// Calls a function with its first two arguments, over the values of its iterator; the third is the store.
fn call_with<'b>(
    alloc: Global,
    function: &'b Function,
    first: LocalValue<'b>,
    second: LocalValue<'b>,
    values: &Column,
    store: &mut Pairs,
) -> Result<(), FunFault>
    ensures { CallsTo (call_of (routine_of function.now) (held_seen first.entry ∷ held_seen second.entry ∷ locals.store ∷ []) values.now.cells store.old) store.new result }
{
    match names_of(alloc, function.params.as_slice(), first, second) {
        Ok(names) => run_call(alloc, function, names, values, store),
        Err(_) => Err(FunFault::Memory),
    }
}

/// Calls a map function with a block of rows and a store, to which its pairs are added. At a fault, which is the first that comes, the
/// store has the pairs that were added before it; for want of memory it has some pairs.
pub fn call_map(
    alloc: Global,
    function: &Function,
    block: &Table,
    store: &mut Pairs,
) -> Result<(), FunFault>
    ensures { CallsTo (call_map (routine_of function.now) block.now store.old) store.new result }
{
    let values = Column::new(alloc, Class::Double);
    call_with(
        alloc,
        function,
        LocalValue::Table(block),
        LocalValue::NoValue,
        &values,
        store,
    )
}

/// Calls a reduce function with a key, an iterator over its values and a store, to which its pairs are added. At a fault, which is the
/// first that comes, the store has the pairs that were added before it; for want of memory it has some pairs.
pub fn call_reduce(
    alloc: Global,
    function: &Function,
    key: &Cell<'_>,
    values: &Column,
    store: &mut Pairs,
) -> Result<(), FunFault>
    ensures { CallsTo (call_reduce (routine_of function.now) (seen key.now) values.now.cells store.old) store.new result }
{
    match kept_scalar(alloc, key) {
        Ok(key) => call_with(alloc, function, key, LocalValue::Iterator, values, store),
        Err(_) => Err(FunFault::Memory),
    }
}
