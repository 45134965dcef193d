//! Statements of functions from their parts.
ghost use Rattle.std.specs.Prelude.{◌≡◌, map};
ghost use Rattle.tall_grammar.specs.Kept.{with_it, with_both};
ghost use Rattle.tall_parse.specs.StepViews.{arm_of};
ghost use Rattle.tall_grammar.specs.Trees.{assign_step, add_step, if_step, while_step, for_step};
ghost use Rattle.tall_grammar.specs.Views.{tree_of, step_of, steps_of, arms_of};

use sqlite_items::Items;
use tall_expr::flagged::Flagged;
use tall_grammar::expressions::Expr;
use tall_grammar::steps::{Arm, FunctionStep};
use tall_value::Name;

fn assign_step(line: u32, name: Name, value: Expr) -> FunctionStep
    ensures { step_of result ≡ assign_step line name (tree_of value) }
{
    FunctionStep::Assign { line, name, value }
}

fn add_step(line: u32, store: Expr, key: Expr, value: Expr) -> FunctionStep
    ensures { step_of result ≡ add_step line (tree_of store) (tree_of key) (tree_of value) }
{
    FunctionStep::Add {
        line,
        store,
        key,
        value,
    }
}

fn if_step(line: u32, arms: Items<Arm>, rest: Items<FunctionStep>) -> FunctionStep
    ensures { step_of result ≡ if_step line (arms_of (map arm_of arms)) (steps_of (map step_of rest)) }
{
    FunctionStep::If { line, arms, rest }
}

fn while_step(line: u32, condition: Expr, body: Items<FunctionStep>) -> FunctionStep
    ensures { step_of result ≡ while_step line (tree_of condition) (steps_of (map step_of body)) }
{
    FunctionStep::While {
        line,
        condition,
        body,
    }
}

fn for_step(line: u32, name: Name, from: Expr, to: Expr, body: Items<FunctionStep>) -> FunctionStep
    ensures { step_of result ≡ for_step line name (tree_of from) (tree_of to) (steps_of (map step_of body)) }
{
    FunctionStep::For {
        line,
        name,
        from,
        to,
        body,
    }
}

fn arm_node(condition: Expr, body: Items<FunctionStep>) -> Arm
    ensures { arm_of result ≡ (tree_of condition, steps_of (map step_of body)) }
{
    Arm { condition, body }
}

/// A name that gets a value.
pub fn assigned(line: u32, name: Name, value: Flagged<Expr>) -> Flagged<FunctionStep>
    ensures { with_it step_of result ≡ with_it (assign_step line name) (with_it tree_of value) }
{
    match value {
        Ok(value) => Ok(assign_step(line, name, value)),
        Err(high) => Err(high),
    }
}

/// A pair that is added.
pub fn added(
    line: u32,
    store: Flagged<Expr>,
    key: Flagged<Expr>,
    value: Flagged<Expr>,
) -> Flagged<FunctionStep>
    ensures { with_it step_of result ≡ with_both (λ a h. a h) (with_both (λ e f. add_step line e f) (with_it tree_of store) (with_it tree_of key)) (with_it tree_of value) }
{
    match (store, key, value) {
        (Ok(store), Ok(key), Ok(value)) => Ok(add_step(line, store, key, value)),
        (Ok(_), Ok(_), Err(high)) => Err(high),
        (Ok(_), Err(high), _) => Err(high),
        (Err(high), _, _) => Err(high),
    }
}

/// A condition and what it governs.
pub fn arm(condition: Flagged<Expr>, body: Flagged<Items<FunctionStep>>) -> Flagged<Arm>
    ensures { with_it arm_of result ≡ with_both (λ e b. (e, steps_of b)) (with_it tree_of condition) (with_it (map step_of) body) }
{
    match (condition, body) {
        (Ok(condition), Ok(body)) => Ok(arm_node(condition, body)),
        (Ok(_), Err(high)) => Err(high),
        (Err(high), _) => Err(high),
    }
}

/// A choice.
pub fn chosen(
    line: u32,
    arms: Flagged<Items<Arm>>,
    rest: Flagged<Items<FunctionStep>>,
) -> Flagged<FunctionStep>
    ensures { with_it step_of result ≡ with_both (λ arms b. if_step line (arms_of arms) (steps_of b)) (with_it (map arm_of) arms) (with_it (map step_of) rest) }
{
    match (arms, rest) {
        (Ok(arms), Ok(rest)) => Ok(if_step(line, arms, rest)),
        (Ok(_), Err(high)) => Err(high),
        (Err(high), _) => Err(high),
    }
}

/// What is done while a condition holds.
pub fn looped(line: u32, arm: Flagged<Arm>) -> Flagged<FunctionStep>
    ensures { with_it step_of result ≡ with_it (λ a. while_step line a.0 a.1) (with_it arm_of arm) }
{
    match arm {
        Ok(Arm { condition, body }) => Ok(while_step(line, condition, body)),
        Err(high) => Err(high),
    }
}

/// What is done for each number from one to another.
pub fn counted(
    line: u32,
    name: Name,
    from: Flagged<Expr>,
    arm: Flagged<Arm>,
) -> Flagged<FunctionStep>
    ensures { with_it step_of result ≡ with_both (λ e a. for_step line name e a.0 a.1) (with_it tree_of from) (with_it arm_of arm) }
{
    match (from, arm) {
        (Ok(from), Ok(Arm { condition, body })) => Ok(for_step(line, name, from, condition, body)),
        (Ok(_), Err(high)) => Err(high),
        (Err(high), _) => Err(high),
    }
}
