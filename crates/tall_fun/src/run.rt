//! The statements of a function, in order.
ghost use Rattle.std.specs.Prelude.{if◌then◌else◌, map};
ghost use Rattle.tall_grammar.specs.Trees.{for_step, while_step};
ghost use Rattle.tall_grammar.specs.Views.{arms_of, step_of, tree_of};
ghost use Rattle.tall_local.specs.Calls.{Ran, ends, for_turns, run_arms, run_step, run_steps};
ghost use Rattle.tall_local.specs.Locals.{Locals};
ghost use Rattle.tall_fun.specs.Frames.{Goes, Runs, arm_of, body_of, frame_state};

use crate::bounds::{Range, range_of};
use crate::conditions::holds;
use crate::failures::{Failure, Refused};
use crate::frame::Frame;
use crate::loops::{begin_number, begin_where_holds, end_turn, has_next_of, waits};
use crate::statements::{add_pair, assign};
use crate::turns::TURN_LIMIT;
use tall_column::Column;
use tall_grammar::{Arm, Expr, FunctionStep};
use tall_value::Name;

#[cycle(run)]
/// Statements, up to the first that fails.
pub(crate) fn run_steps<'b>(
    values: &Column,
    frame: &mut Frame<'b>,
    steps: &'b [FunctionStep],
) -> Result<(), Failure>
    ensures { Runs (run_steps values.now.cells (body_of steps.now) (frame_state frame.old)) result (frame_state frame.new) }
{
    for step in steps {
        match run_step(values, frame, step) {
            Ok(()) => {}
            Err(failure) => return Err(failure),
        }
    }
    Ok(())
}

#[cycle(run)]
/// A statement.
fn run_step<'b>(
    values: &Column,
    frame: &mut Frame<'b>,
    step: &'b FunctionStep,
) -> Result<(), Failure>
    ensures { Runs (run_step values.now.cells (step_of step.now) (frame_state frame.old)) result (frame_state frame.new) }
{
    match step {
        FunctionStep::Assign { line, name, value } => assign(values, frame, *line, name, value),
        FunctionStep::Add {
            line,
            store,
            key,
            value,
        } => add_pair(values, frame, *line, store, key, value),
        FunctionStep::If { arms, rest, .. } => match run_arms(values, frame, arms.as_slice()) {
            Ok(true) => Ok(()),
            Ok(false) => run_steps(values, frame, rest.as_slice()),
            Err(failure) => Err(failure),
        },
        FunctionStep::While {
            line,
            condition,
            body,
        } => run_while(values, frame, body.as_slice(), *line, condition),
        FunctionStep::For {
            line,
            name,
            from,
            to,
            body,
        } => run_for(values, frame, body.as_slice(), *line, name, from, to),
    }
}

#[cycle(run)]
/// The first arm whose condition holds; tells whether there is one.
fn run_arms<'b>(values: &Column, frame: &mut Frame<'b>, arms: &'b [Arm]) -> Result<bool, Failure>
    ensures { (rest : Locals → Ran) → Goes (run_arms values.now.cells (arms_of (map arm_of arms.now)) rest (frame_state frame.old)) (λ b t. if b then ends t else rest t) result (frame_state frame.new) }
{
    for arm in arms {
        match holds(values, frame, arm.condition.line, &arm.condition) {
            Ok(true) => {
                return match run_steps(values, frame, arm.body.as_slice()) {
                    Ok(()) => Ok(true),
                    Err(failure) => Err(failure),
                };
            }
            Ok(false) => {}
            Err(failure) => return Err(failure),
        }
    }
    Ok(false)
}

#[cycle(run)]
/// A `while`: turns until its condition doesn't hold. It comes to the limit of turns before it comes to the end of the count.
fn run_while<'b>(
    values: &Column,
    frame: &mut Frame<'b>,
    body: &'b [FunctionStep],
    line: u32,
    condition: &Expr,
) -> Result<(), Failure>
    ensures { Runs (run_step values.now.cells (while_step line (tree_of condition.now) (body_of body.now)) (frame_state frame.old)) result (frame_state frame.new) }
{
    let has_next = has_next_of(condition);
    for _turn in 0..TURN_LIMIT {
        match begin_where_holds(values, frame, line, condition) {
            Ok(true) => {}
            Ok(false) => return Ok(()),
            Err(failure) => return Err(failure),
        }
        let waits = waits(&frame.names, has_next);
        let given = frame.given;
        match run_steps(values, frame, body) {
            Ok(()) => {}
            Err(failure) => return Err(failure),
        }
        match end_turn(frame, line, waits, given) {
            Ok(()) => {}
            Err(failure) => return Err(failure),
        }
    }
    Err(Failure {
        line,
        refused: Refused::TooManyTurns,
    })
}

#[cycle(run)]
/// A `for`: its bounds, and then its turns.
fn run_for<'b>(
    values: &Column,
    frame: &mut Frame<'b>,
    body: &'b [FunctionStep],
    line: u32,
    name: &'b Name,
    from: &Expr,
    to: &Expr,
) -> Result<(), Failure>
    ensures { Runs (run_step values.now.cells (for_step line name.now (tree_of from.now) (tree_of to.now) (body_of body.now)) (frame_state frame.old)) result (frame_state frame.new) }
{
    match range_of(values, frame, line, from, to) {
        Ok(range) => run_range(values, frame, body, line, name, range),
        Err(failure) => Err(failure),
    }
}

#[cycle(run)]
/// The turns of a `for`, each with its number.
fn run_range<'b>(
    values: &Column,
    frame: &mut Frame<'b>,
    body: &'b [FunctionStep],
    line: u32,
    name: &'b Name,
    range: Range,
) -> Result<(), Failure>
    ensures { Runs (for_turns range.turns line name.now range.first (λ t. run_steps values.now.cells (body_of body.now) t) (frame_state frame.old)) result (frame_state frame.new) }
{
    for turn in 0..range.turns {
        match begin_number(frame, line, name, &range, turn) {
            Ok(()) => {}
            Err(failure) => return Err(failure),
        }
        match run_steps(values, frame, body) {
            Ok(()) => {}
            Err(failure) => return Err(failure),
        }
    }
    Ok(())
}
