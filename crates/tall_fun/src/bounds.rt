//! The bounds of a `for`.
ghost use Rattle.std.specs.Prelude.{◌≡◌, ◌≤◌, ◌^◌, ℕ, ℤ, unsigned_abs};
ghost use Rattle.tall_grammar.specs.Views.{tree_of};
ghost use Rattle.tall_value.specs.Cells.{seen};
ghost use Rattle.tall_local.specs.Calls.{Ran, bounds_of, or_break, turns_between, with_local};
ghost use Rattle.tall_local.specs.Locals.{Locals, value};
ghost use Rattle.tall_local.specs.Memory.{scalar};
ghost use Rattle.tall_memory.specs.Values.{value_seen};
ghost use Rattle.tall_fun.specs.Frames.{Goes, double_in, frame_state};
ghost use Rattle.tall_fun.specs.Bounds.{IsSmallBound, bound_seen, ranged};
ghost use Rattle.tall_fun.specs.Values.{held_seen};

use crate::failures::{Failure, failed};
use crate::frame::{Frame, value_of};
use crate::values::LocalValue;
use tall_column::Column;
use tall_grammar::Expr;
use tall_memory::{MemoryFault, MemoryRef, MemoryValue};
use tall_value::{Cell, Content};

/// A bound as it was given.
#[derive(Clone, Copy)]
enum Bound {
    Number(i64),
    Nan,
    /// No double scalar.
    Other,
}

/// The turns of a `for`: so many, the first with this number.
#[derive(Clone, Copy)]
pub(crate) struct Range {
    pub(crate) first: i64,
    pub(crate) turns: u64,
}

/// The bound of a cell.
fn bound_in(c: &Cell<'_>) -> Bound
    ensures bound { bound_seen result ≡ double_in (value (scalar (seen c.now))) }
    ensures small { IsSmallBound result }
{
    match c.content() {
        Content::Double(d) => match d.get() {
            Some(n) => Bound::Number(n),
            None => Bound::Nan,
        },
        Content::Whole(_, _) => Bound::Other,
        Content::Logical(_) => Bound::Other,
        Content::Text(_) => Bound::Other,
    }
}

fn bound_in_memory(v: &MemoryValue) -> Bound
    ensures bound { bound_seen result ≡ double_in (value (value_seen v.now)) }
    ensures small { IsSmallBound result }
{
    match v.lend() {
        MemoryRef::Scalar(c) => bound_in(&c),
        MemoryRef::Column(_) => Bound::Other,
        MemoryRef::Table(_) => Bound::Other,
        MemoryRef::Texts(_) => Bound::Other,
    }
}

/// A value as a bound.
fn bound_of(v: &LocalValue<'_>) -> Bound
    ensures bound { bound_seen result ≡ double_in (held_seen v.now) }
    ensures small { IsSmallBound result }
{
    match v {
        LocalValue::Kept(kept) => bound_in_memory(kept),
        LocalValue::Column(_) => Bound::Other,
        LocalValue::Table(_) => Bound::Other,
        LocalValue::Texts(_) => Bound::Other,
        LocalValue::Store => Bound::Other,
        LocalValue::Iterator => Bound::Other,
        LocalValue::NoValue => Bound::Other,
    }
}

/// How many turns go from one number to another.
fn turns_between(from: i64, to: i64) -> u64
    requires first { unsigned_abs from ≤ 2 ^ 53 }
    requires last { unsigned_abs to ≤ 2 ^ 53 }
    ensures { result ≡ turns_between from to }
{
    let turns = to + 1 - from;
    if turns < 0 { 0 } else { turns as u64 }
}

/// The turns from one bound to another, on the line of their statement.
fn range_between(line: u32, from: Bound, to: Bound) -> Result<Range, Failure>
    requires first { IsSmallBound from }
    requires last { IsSmallBound to }
    ensures { (f : ℤ → ℕ → Locals → Ran) (t : Locals) → Goes (or_break line t (ranged (bound_seen from) (bound_seen to)) (λ b. f b.0 (turns_between b.0 b.1) t)) (λ r t. f r.first r.turns t) result t }
{
    match (from, to) {
        (Bound::Other, _) => Err(failed(line, MemoryFault::BadClass)),
        (Bound::Nan, Bound::Other) => Err(failed(line, MemoryFault::BadClass)),
        (Bound::Number(_), Bound::Other) => Err(failed(line, MemoryFault::BadClass)),
        (Bound::Number(first), Bound::Number(last)) => Ok(Range {
            first,
            turns: turns_between(first, last),
        }),
        (Bound::Number(_), Bound::Nan) => Err(failed(line, MemoryFault::BadIndex)),
        (Bound::Nan, Bound::Nan) => Err(failed(line, MemoryFault::BadIndex)),
        (Bound::Nan, Bound::Number(_)) => Err(failed(line, MemoryFault::BadIndex)),
    }
}

/// The turns of a `for` on a line, whose first bound is given and whose last bound is evaluated.
fn range_up_to(
    values: &Column,
    frame: &mut Frame<'_>,
    line: u32,
    from: Bound,
    to: &Expr,
) -> Result<Range, Failure>
    requires { IsSmallBound from }
    ensures { (f : ℤ → ℕ → Locals → Ran) → Goes (with_local values.now.cells (tree_of to.now) (frame_state frame.old) (λ y u. or_break line u (ranged (bound_seen from) (double_in y)) (λ b. f b.0 (turns_between b.0 b.1) u))) (λ r t. f r.first r.turns t) result (frame_state frame.new) }
{
    match value_of(values, frame, to) {
        Ok(to) => range_between(line, from, bound_of(&to)),
        Err(failure) => Err(failure),
    }
}

/// The turns of a `for` on a line: its first bound is evaluated first, and both have to be double scalars other than NaN.
pub(crate) fn range_of(
    values: &Column,
    frame: &mut Frame<'_>,
    line: u32,
    from: &Expr,
    to: &Expr,
) -> Result<Range, Failure>
    ensures { (f : ℤ → ℕ → Locals → Ran) → Goes (with_local values.now.cells (tree_of from.now) (frame_state frame.old) (λ x t. with_local values.now.cells (tree_of to.now) t (λ y u. or_break line u (bounds_of x y) (λ b. f b.0 (turns_between b.0 b.1) u)))) (λ r t. f r.first r.turns t) result (frame_state frame.new) }
{
    match value_of(values, frame, from) {
        Ok(from) => range_up_to(values, frame, line, bound_of(&from), to),
        Err(failure) => Err(failure),
    }
}
