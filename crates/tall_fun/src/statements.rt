//! Statements that give a name a value, or add a pair.
ghost use Rattle.std.specs.Prelude.{◌≡◌};
ghost use Rattle.tall_grammar.specs.Trees.{add_step};
ghost use Rattle.tall_grammar.specs.Views.{tree_of};
ghost use Rattle.tall_local.specs.Calls.{assigned, or_break, ends, pairs_with, run_step, set_pairs, with_local};
ghost use Rattle.tall_local.specs.Locals as locals;
ghost use Rattle.tall_local.specs.Memory.{scalar};
ghost use Rattle.tall_local.specs.Pairs.{added};
ghost use Rattle.tall_value.specs.Cells.{seen};
ghost use Rattle.tall_memory.specs.Values.{ref_seen};
ghost use Rattle.tall_fun.specs.Failures.{pair_stop, stop_of};
ghost use Rattle.tall_fun.specs.Frames.{Runs, frame_state, pair_added};
ghost use Rattle.tall_fun.specs.Values.{held_seen};

use crate::failures::{Failure, Refused, failed, no_memory};
use crate::frame::{Frame, value_of};
use crate::values::LocalValue;
use tall_column::Column;
use tall_grammar::Expr;
use tall_kv::PairFault;
use tall_memory::{MemoryFault, MemoryRef};
use tall_value::{Cell, Name};

/// Gives a name a value, which has to be one in memory.
fn put_value<'b>(
    frame: &mut Frame<'b>,
    line: u32,
    name: &'b Name,
    value: LocalValue<'b>,
) -> Result<(), Failure>
    ensures { Runs (assigned line name.now (held_seen value.entry) (frame_state frame.old)) result (frame_state frame.new) }
{
    if !value.is_memory() {
        return Err(failed(line, MemoryFault::BadClass));
    }
    match frame.names.put(name.as_str(), value) {
        Ok(()) => Ok(()),
        Err(_) => Err(no_memory()),
    }
}

/// `name = expression`
pub(crate) fn assign<'b>(
    values: &Column,
    frame: &mut Frame<'b>,
    line: u32,
    name: &'b Name,
    e: &Expr,
) -> Result<(), Failure>
    ensures { Runs (with_local values.now.cells (tree_of e.now) (frame_state frame.old) (assigned line name.now)) result (frame_state frame.new) }
{
    match value_of(values, frame, e) {
        Ok(value) => put_value(frame, line, name, value),
        Err(failure) => Err(failure),
    }
}

// ---- pairs

/// The failure of a pair that the store refuses.
fn refused_pair(fault: PairFault) -> Failure
    ensures { stop_of result ≡ pair_stop fault }
{
    match fault {
        PairFault::KeyClass { line } => Failure {
            line,
            refused: Refused::KeyClass,
        },
        PairFault::ValueClass { line } => Failure {
            line,
            refused: Refused::ValueClass,
        },
        PairFault::TooManyRows { line } => Failure {
            line,
            refused: Refused::TooManyRows,
        },
        PairFault::Memory => no_memory(),
    }
}

/// Adds a pair of cells.
fn add_cells(
    frame: &mut Frame<'_>,
    line: u32,
    key: &Cell<'_>,
    value: &Cell<'_>,
) -> Result<(), Failure>
    ensures { Runs (or_break line (frame_state frame.old) (added line frame.old.store (scalar (seen key.now)) (scalar (seen value.now))) (λ ps. ends (set_pairs ps (frame_state frame.old)))) result (frame_state frame.new) }
{
    match frame.store.add(line, key, value) {
        Ok(()) => Ok(()),
        Err(fault) => Err(refused_pair(fault)),
    }
}

/// Adds a pair of values in memory: the key has to be a scalar, and then the value.
fn add_memory(
    frame: &mut Frame<'_>,
    line: u32,
    key: &MemoryRef<'_>,
    value: &MemoryRef<'_>,
) -> Result<(), Failure>
    ensures { Runs (or_break line (frame_state frame.old) (added line frame.old.store (ref_seen key.now) (ref_seen value.now)) (λ ps. ends (set_pairs ps (frame_state frame.old)))) result (frame_state frame.new) }
{
    match key {
        MemoryRef::Scalar(key) => add_value(frame, line, key, value),
        MemoryRef::Column(_) | MemoryRef::Table(_) | MemoryRef::Texts(_) => {
            Err(Failure {
                line,
                refused: Refused::KeyClass,
            })
        }
    }
}

/// Adds a pair of a cell and a value in memory, which has to be a scalar.
fn add_value(
    frame: &mut Frame<'_>,
    line: u32,
    key: &Cell<'_>,
    value: &MemoryRef<'_>,
) -> Result<(), Failure>
    ensures { Runs (or_break line (frame_state frame.old) (added line frame.old.store (scalar (seen key.now)) (ref_seen value.now)) (λ ps. ends (set_pairs ps (frame_state frame.old)))) result (frame_state frame.new) }
{
    match value {
        MemoryRef::Scalar(value) => add_cells(frame, line, key, value),
        MemoryRef::Column(_) | MemoryRef::Table(_) | MemoryRef::Texts(_) => {
            Err(Failure {
                line,
                refused: Refused::ValueClass,
            })
        }
    }
}

/// Adds a pair to the store: a store or an iterator is no key and no value.
fn add_to_store(
    frame: &mut Frame<'_>,
    line: u32,
    key: &LocalValue<'_>,
    value: &LocalValue<'_>,
) -> Result<(), Failure>
    ensures { Runs (or_break line (frame_state frame.old) (pairs_with line frame.old.store locals.store (held_seen key.now) (held_seen value.now)) (λ ps. ends (set_pairs ps (frame_state frame.old)))) result (frame_state frame.new) }
{
    match key.memory() {
        Some(key) => match value.memory() {
            Some(value) => add_memory(frame, line, &key, &value),
            None => Err(failed(line, MemoryFault::BadClass)),
        },
        None => Err(failed(line, MemoryFault::BadClass)),
    }
}

/// Adds a pair to what has to be the store.
fn put_pair(
    frame: &mut Frame<'_>,
    line: u32,
    store: &LocalValue<'_>,
    key: &LocalValue<'_>,
    value: &LocalValue<'_>,
) -> Result<(), Failure>
    ensures { Runs (pair_added line (held_seen store.now) (held_seen key.now) (held_seen value.now) (frame_state frame.old)) result (frame_state frame.new) }
{
    match store {
        LocalValue::Store => add_to_store(frame, line, key, value),
        LocalValue::Kept(_) => Err(failed(line, MemoryFault::BadArgument)),
        LocalValue::Column(_) => Err(failed(line, MemoryFault::BadArgument)),
        LocalValue::Table(_) => Err(failed(line, MemoryFault::BadArgument)),
        LocalValue::Texts(_) => Err(failed(line, MemoryFault::BadArgument)),
        LocalValue::Iterator => Err(failed(line, MemoryFault::BadArgument)),
        LocalValue::NoValue => Err(failed(line, MemoryFault::BadArgument)),
    }
}

/// Adds a pair to what is given, with the value of an expression.
fn add_with_value(
    values: &Column,
    frame: &mut Frame<'_>,
    line: u32,
    store: &LocalValue<'_>,
    key: &LocalValue<'_>,
    value: &Expr,
) -> Result<(), Failure>
    ensures { Runs (with_local values.now.cells (tree_of value.now) (frame_state frame.old) (pair_added line (held_seen store.now) (held_seen key.now))) result (frame_state frame.new) }
{
    match value_of(values, frame, value) {
        Ok(value) => put_pair(frame, line, store, key, &value),
        Err(failure) => Err(failure),
    }
}

/// Adds a pair to what is given, with the values of two expressions.
fn add_with_key(
    values: &Column,
    frame: &mut Frame<'_>,
    line: u32,
    store: &LocalValue<'_>,
    key: &Expr,
    value: &Expr,
) -> Result<(), Failure>
    ensures { Runs (with_local values.now.cells (tree_of key.now) (frame_state frame.old) (λ k t. with_local values.now.cells (tree_of value.now) t (pair_added line (held_seen store.now) k))) result (frame_state frame.new) }
{
    match value_of(values, frame, key) {
        Ok(key) => add_with_value(values, frame, line, store, &key, value),
        Err(failure) => Err(failure),
    }
}

/// `add(store, key, value)`
pub(crate) fn add_pair(
    values: &Column,
    frame: &mut Frame<'_>,
    line: u32,
    store: &Expr,
    key: &Expr,
    value: &Expr,
) -> Result<(), Failure>
    ensures { Runs (run_step values.now.cells (add_step line (tree_of store.now) (tree_of key.now) (tree_of value.now)) (frame_state frame.old)) result (frame_state frame.new) }
{
    match value_of(values, frame, store) {
        Ok(store) => add_with_key(values, frame, line, &store, key, value),
        Err(failure) => Err(failure),
    }
}
