//! The turns of loops.
ghost use Rattle.std.specs.Prelude.{◌≡◌, ◌∷◌, [], ◌+ℤ◌, Some, if◌then◌else◌, map, option_map, pos};
ghost use Rattle.tall_grammar.specs.Views.{args_of, arg_of, tree_of};
ghost use Rattle.tall_value.specs.Cells.{double};
ghost use Rattle.tall_local.specs.Calls.{Ran, begin_turn, end_turn, ends, has_next_of, is_iterator, local_value, where_holds};
ghost use Rattle.tall_local.specs.Locals.{Locals, set_local};
ghost use Rattle.tall_local.specs.Memory.{scalar};
ghost use Rattle.tall_local.specs.Names.{named};
ghost use Rattle.tall_fun.specs.Frames.{Goes, Runs, frame_state, name_in, only_name};
ghost use Rattle.tall_fun.specs.Loops.{has_next_in, waits_in};

use crate::bounds::Range;
use crate::conditions::holds;
use crate::failures::{Failure, Refused, no_memory};
use crate::frame::Frame;
use crate::names::Names;
use crate::scope::has_value;
use crate::values::{LocalValue, kept_scalar};
use tall_column::Column;
use tall_grammar::{Arg, Expr, Node};
use tall_int::Whole;
use tall_value::{Cell, Name};

// ---- loops that wait for the iterator

/// The name that an expression is.
pub(crate) fn name_in(e: &Expr) -> Option<&Name>
    ensures { option_map (λ x. x.now) result ≡ name_in (tree_of e.now) }
{
    match &e.node {
        Node::Name(name) => Some(name),
        _ => None,
    }
}

/// The only argument, where it is a name.
fn only_name(args: &[Arg]) -> Option<&Name>
    ensures { option_map (λ x. x.now) result ≡ only_name (args_of (map arg_of args.now)) }
{
    match args {
        [] => None,
        [first, others @ ..] => {
            if others.is_empty() {
                name_in_argument(first)
            } else {
                None
            }
        }
    }
}

fn name_in_argument(arg: &Arg) -> Option<&Name>
    ensures { option_map (λ x. x.now) result ≡ only_name (args_of (arg_of arg.now ∷ [])) }
{
    match arg {
        Arg::Value(e) => name_in(e),
        Arg::Colon => None,
    }
}

/// The name in a condition that is `hasnext(NAME)`.
pub(crate) fn has_next_of(condition: &Expr) -> Option<&Name>
    ensures { option_map (λ x. x.now) result ≡ has_next_of (tree_of condition.now) }
{
    match &condition.node {
        Node::Call(callee, args) => has_next_in(callee.get(), args.as_slice()),
        _ => None,
    }
}

/// The only argument of a call, where `hasnext` is called and it is a name.
fn has_next_in<'a>(callee: &Expr, args: &'a [Arg]) -> Option<&'a Name>
    ensures { option_map (λ x. x.now) result ≡ has_next_in (name_in (tree_of callee.now)) (only_name (args_of (map arg_of args.now))) }
{
    match name_in(callee) {
        Some(name) => {
            if name.as_str() == "hasnext" {
                only_name(args)
            } else {
                None
            }
        }
        None => None,
    }
}

/// The name is the iterator.
pub(crate) fn is_iterator(names: &Names<'_>, name: &str) -> bool
    ensures { result ≡ is_iterator (named names.now name.now) }
{
    match names.get(name) {
        Some(LocalValue::Iterator) => true,
        _ => false,
    }
}

/// The loop with this name in its `hasnext` waits for the iterator.
pub(crate) fn waits(names: &Names<'_>, has_next: Option<&Name>) -> bool
    ensures { result ≡ waits_in (option_map (λ x. x.now) has_next.entry) names.now }
{
    match has_next {
        Some(name) => !has_value(names, "hasnext") && is_iterator(names, name.as_str()),
        None => false,
    }
}

// ---- turns

/// One more turn begins.
fn begin_turn(frame: &mut Frame<'_>, line: u32) -> Result<(), Failure>
    ensures { (f : Locals → Ran) → Goes (begin_turn line (frame_state frame.old) f) (λ u t. f t) result (frame_state frame.new) }
{
    if frame.turns.begin() {
        Ok(())
    } else {
        Err(Failure {
            line,
            refused: Refused::TooManyTurns,
        })
    }
}

/// Begins a turn of a `while` where its condition holds; else the loop is at its end.
pub(crate) fn begin_where_holds(
    values: &Column,
    frame: &mut Frame<'_>,
    line: u32,
    condition: &Expr,
) -> Result<bool, Failure>
    ensures { (f : Locals → Ran) → Goes (where_holds line (local_value values.now.cells (tree_of condition.now) (frame_state frame.old)) (λ t. begin_turn line t f)) (λ b t. if b then f t else ends t) result (frame_state frame.new) }
{
    match holds(values, frame, line, condition) {
        Ok(true) => match begin_turn(frame, line) {
            Ok(()) => Ok(true),
            Err(failure) => Err(failure),
        },
        Ok(false) => Ok(false),
        Err(failure) => Err(failure),
    }
}

/// Ends a turn of a `while`, that began when the iterator had given so many values: a loop that waits for it has taken some.
pub(crate) fn end_turn(
    frame: &Frame<'_>,
    line: u32,
    waits: bool,
    given: usize,
) -> Result<(), Failure>
    ensures { (f : Locals → Ran) → Goes (end_turn line waits given (frame_state frame.now) f) (λ u t. f t) result (frame_state frame.now) }
{
    if waits && frame.given == given {
        return Err(Failure {
            line,
            refused: Refused::NoProgress,
        });
    }
    Ok(())
}

/// Begins a turn of a `for`, counted from 0, and gives its name the number of the turn.
pub(crate) fn begin_number<'b>(
    frame: &mut Frame<'b>,
    line: u32,
    name: &'b Name,
    range: &Range,
    turn: u64,
) -> Result<(), Failure>
    ensures { (f : Locals → Ran) → Goes (begin_turn line (frame_state frame.old) (λ t. f (set_local name.now (scalar (double (Some (range.now.first +ℤ pos turn)))) t))) (λ u t. f t) result (frame_state frame.new) }
{
    begin_turn(frame, line)?;
    match Whole::of_number(range.first as i128 + turn as i128) {
        Ok(number) => set_number(frame, name, number),
        Err(_) => Err(no_memory()),
    }
}

/// Gives a name a number.
fn set_number<'b>(frame: &mut Frame<'b>, name: &'b Name, number: Whole) -> Result<(), Failure>
    ensures { Runs (ends (set_local name.now (scalar (double number)) (frame_state frame.old))) result (frame_state frame.new) }
{
    match kept_scalar(frame.alloc, &Cell::Double(number)) {
        Ok(value) => match frame.names.put(name.as_str(), value) {
            Ok(()) => Ok(()),
            Err(_) => Err(no_memory()),
        },
        Err(_) => Err(no_memory()),
    }
}
