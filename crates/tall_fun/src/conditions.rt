//! Conditions and the bounds of loops.
ghost use Rattle.std.specs.Prelude.{◌≡◌, Bool};
ghost use Rattle.tall_grammar.specs.Views.{tree_of};
ghost use Rattle.tall_value.specs.Cells.{seen};
ghost use Rattle.tall_local.specs.Calls.{Ran, or_break, truth_of, with_local};
ghost use Rattle.tall_memory.specs.Values.{value_seen};
ghost use Rattle.tall_local.specs.Locals.{Locals, value};
ghost use Rattle.tall_local.specs.Memory as memory;
ghost use Rattle.tall_local.specs.Memory.{scalar};
ghost use Rattle.tall_fun.specs.Frames.{Goes, frame_state};
ghost use Rattle.tall_fun.specs.Values.{AnswersOf, held_seen};

use crate::failures::{Failure, failed};
use crate::frame::{Frame, value_of};
use crate::values::LocalValue;
use tall_column::Column;
use tall_grammar::Expr;
use tall_memory::{MemoryFault, MemoryRef, MemoryValue};
use tall_value::{Cell, Class, Content, FaultKind};

/// The logical value of a cell.
fn truth_in(c: &Cell<'_>) -> Result<bool, MemoryFault>
    ensures { AnswersOf (truth_of (value (scalar (seen c.now)))) result }
{
    match c.content() {
        Content::Whole(_, n) => Ok(n != 0),
        Content::Logical(b) => Ok(b),
        Content::Double(_) => match c.amount() {
            Some(n) => Ok(n != 0),
            None => Err(MemoryFault::Data {
                row: None,
                kind: FaultKind::NanLogical,
            }),
        },
        Content::Text(_) => Err(MemoryFault::BadClass),
    }
}

/// A column is no condition: its class is looked at first.
fn column_refused(x: &Column) -> Result<bool, MemoryFault>
    ensures { AnswersOf (truth_of (value (memory.column x.now))) result }
{
    match x.class() {
        Class::Text => Err(MemoryFault::BadClass),
        _ => Err(MemoryFault::BadSize),
    }
}

/// The logical value of a condition: a scalar that is no string. BadSize for a column, BadClass for anything else.
pub(crate) fn truth_of(v: &LocalValue<'_>) -> Result<bool, MemoryFault>
    ensures { AnswersOf (truth_of (held_seen v.now)) result }
{
    match v {
        LocalValue::Kept(kept) => truth_of_kept(kept),
        LocalValue::Column(x) => column_refused(x),
        LocalValue::Table(_) => Err(MemoryFault::BadClass),
        LocalValue::Texts(_) => Err(MemoryFault::BadClass),
        LocalValue::Store => Err(MemoryFault::BadClass),
        LocalValue::Iterator => Err(MemoryFault::BadClass),
        LocalValue::NoValue => Err(MemoryFault::BadClass),
    }
}

fn truth_of_kept(v: &MemoryValue) -> Result<bool, MemoryFault>
    ensures { AnswersOf (truth_of (value (value_seen v.now))) result }
{
    match v.lend() {
        MemoryRef::Scalar(c) => truth_in(&c),
        MemoryRef::Column(x) => column_refused(x),
        MemoryRef::Table(_) => Err(MemoryFault::BadClass),
        MemoryRef::Texts(_) => Err(MemoryFault::BadClass),
    }
}

/// The condition of a statement holds.
pub(crate) fn holds(
    values: &Column,
    frame: &mut Frame<'_>,
    line: u32,
    condition: &Expr,
) -> Result<bool, Failure>
    ensures { (f : Bool → Locals → Ran) → Goes (with_local values.now.cells (tree_of condition.now) (frame_state frame.old) (λ h t. or_break line t (truth_of h) (λ b. f b t))) f result (frame_state frame.new) }
{
    match value_of(values, frame, condition) {
        Ok(value) => truth_at(line, &value),
        Err(failure) => Err(failure),
    }
}

/// The logical value of the condition of a statement.
fn truth_at(line: u32, value: &LocalValue<'_>) -> Result<bool, Failure>
    ensures { (f : Bool → Locals → Ran) (t : Locals) → Goes (or_break line t (truth_of (held_seen value.now)) (λ b. f b t)) f result t }
{
    match truth_of(value) {
        Ok(b) => Ok(b),
        Err(fault) => Err(failed(line, fault)),
    }
}
