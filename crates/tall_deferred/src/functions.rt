//! Functions over values of a script (docs/LANGUAGE.md, functions).
ghost use Rattle.std.specs.Prelude.{◌≡◌, ◌<◌, IfOk, ℕ, get_or, length, map, option_map};
ghost use Rattle.std.specs.List.{All};
ghost use Rattle.tall_semantics.specs.Talls.{Tall};
ghost use Rattle.tall_local.specs.Applications.{application};
ghost use Rattle.tall_local.specs.Memory as memory;
ghost use Rattle.tall_local.specs.Values.{datastore, deferred, tall_table};
ghost use Rattle.tall_script.specs.ScriptLanguage.{application_answer};
ghost use Rattle.tall_script.specs.ScriptValues.{application_value, binary_value, height_value, operation_value, scalar_given};
ghost use Rattle.tall_script.specs.VertexLaws.{IsLower};
ghost use Rattle.tall_memory.specs.Shapes.{application_seen, operation_seen};
ghost use Rattle.tall_memory.specs.Values.{ref_seen};
ghost use Rattle.tall_deferred.specs.Answers.{Extends, Means};
ghost use Rattle.tall_deferred.specs.Forms.{AreAlike, with_operands};
ghost use Rattle.tall_deferred.specs.Values.{IsLent, IsValue, IsVariable, at_seen, lent_at, value_at, variables_at};

use crate::faults::ValueFault;
use crate::groups::groups_value;
use crate::nodes::{deferring, in_memory};
use crate::operators::binary_value;
use crate::rows::{RowsKept, kept_table};
use crate::values::{At, ScriptRef, ScriptValue, Variable, lent_again};
use std::alloc::Global;
use tall_functions::memory_operation;
use tall_graph::{Graph, NodeId, NodeOp};
use tall_local::ValueFunction;
use tall_memory::{Application, MemoryRef, MemoryValue, Operation, application_of};
use tall_value::{Binary, Cell, Reduction};

#[tactic(auto, using(crate::proofs::Grown::adds_nothing))]
/// An operation on a tall column or scalar.
fn tall_operation(
    graph: &mut Graph,
    at: At,
    op: &Operation<'_>,
    x: NodeId,
) -> Result<ScriptValue, ValueFault>
    requires lower { All (IsLower (at_seen at)) graph.old }
    requires within { x < length graph.old }
    ensures extends { Extends (at_seen at) graph.old graph.new }
    ensures within { IfOk result (IsValue (length graph.new)) }
    ensures given { Means graph.new value_at (λ f. operation_value (at_seen at) (operation_seen op.now) (deferred (f x))) result }
{
    match op {
        Operation::Reduce(r) => deferring(graph, at, NodeOp::Reduce(*r), &[x]),
        Operation::Height => Err(ValueFault::BadClass),
        Operation::Scan(s) => deferring(graph, at, NodeOp::Scan(*s), &[x]),
        Operation::Head(k) => deferring(graph, at, NodeOp::Head(*k), &[x]),
        Operation::Tail(k) => deferring(graph, at, NodeOp::Tail(*k), &[x]),
        Operation::Distinct => deferring(graph, at, NodeOp::Distinct, &[x]),
        Operation::Groups { .. } => Err(ValueFault::BadClass),
        Operation::Unary(op) => deferring(graph, at, NodeOp::Unary(*op), &[x]),
    }
}

#[tactic(auto, using(crate::proofs::Grown::adds_nothing))]
/// The number of rows of a table: that of its first column.
fn table_height(
    graph: &mut Graph,
    at: At,
    variables: &[Variable],
) -> Result<ScriptValue, ValueFault>
    requires lower { All (IsLower (at_seen at)) graph.old }
    requires within { All (IsVariable (length graph.old)) variables.now }
    ensures extends { Extends (at_seen at) graph.old graph.new }
    ensures within { IfOk result (IsValue (length graph.new)) }
    ensures given { Means graph.new value_at (λ f. height_value (at_seen at) (tall_table (variables_at f variables.now))) result }
{
    match variables {
        [] => Err(ValueFault::BadClass),
        [first, _rest @ ..] => {
            deferring(graph, at, NodeOp::Reduce(Reduction::Height), &[first.node])
        }
    }
}

#[tactic(auto, using(crate::proofs::Grown::adds_nothing))]
/// An operation on a tall table.
fn table_operation(
    alloc: Global,
    graph: &mut Graph,
    at: At,
    op: &Operation<'_>,
    variables: &[Variable],
) -> Result<ScriptValue, ValueFault>
    requires lower { All (IsLower (at_seen at)) graph.old }
    requires within { All (IsVariable (length graph.old)) variables.now }
    ensures extends { Extends (at_seen at) graph.old graph.new }
    ensures within { IfOk result (IsValue (length graph.new)) }
    ensures given { Means graph.new value_at (λ f. operation_value (at_seen at) (operation_seen op.now) (tall_table (variables_at f variables.now))) result }
{
    match op {
        Operation::Reduce(_) => Err(ValueFault::BadClass),
        Operation::Height => table_height(graph, at, variables),
        Operation::Scan(_) => Err(ValueFault::BadClass),
        Operation::Head(k) => kept_table(alloc, graph, at, &RowsKept::First(*k), variables),
        Operation::Tail(k) => kept_table(alloc, graph, at, &RowsKept::Last(*k), variables),
        Operation::Distinct => Err(ValueFault::BadClass),
        Operation::Groups { key, method, value } => {
            groups_value(alloc, graph, at, variables, key, *method, value)
        }
        Operation::Unary(_) => Err(ValueFault::BadClass),
    }
}

#[tactic(auto, using(crate::proofs::Grown::adds_nothing, crate::proofs::Grown::in_memory_within))]
/// An operation on one operand; values in memory are computed at once.
fn operation_value(
    alloc: Global,
    graph: &mut Graph,
    at: At,
    op: &Operation<'_>,
    v: &ScriptRef<'_>,
) -> Result<ScriptValue, ValueFault>
    requires lower { All (IsLower (at_seen at)) graph.old }
    requires within { IsLent (length graph.old) v.now }
    ensures extends { Extends (at_seen at) graph.old graph.new }
    ensures within { IfOk result (IsValue (length graph.new)) }
    ensures given { Means graph.new value_at (λ f. operation_value (at_seen at) (operation_seen op.now) (lent_at f v.now)) result }
{
    match v {
        ScriptRef::Memory(v) => in_memory(alloc, memory_operation(alloc, op, v)),
        ScriptRef::Tall(x) => tall_operation(graph, at, op, *x),
        ScriptRef::Table(variables) => table_operation(alloc, graph, at, op, variables),
        ScriptRef::Datastore(_) => Err(ValueFault::BadClass),
    }
}

#[tactic(auto, using(crate::proofs::Grown::adds_nothing))]
/// An operation on the first argument; there is one.
fn on_first(
    alloc: Global,
    graph: &mut Graph,
    at: At,
    op: &Operation<'_>,
    args: &[ScriptRef<'_>],
) -> Result<ScriptValue, ValueFault>
    requires lower { All (IsLower (at_seen at)) graph.old }
    requires within { All (IsLent (length graph.old)) args.now }
    ensures extends { Extends (at_seen at) graph.old graph.new }
    ensures within { IfOk result (IsValue (length graph.new)) }
    ensures given { Means graph.new value_at (λ f. operation_value (at_seen at) (operation_seen op.now) (get_or (map (lent_at f) args.now) 0 (datastore 0))) result }
{
    match args {
        [] => Err(ValueFault::Memory),
        [v, _rest @ ..] => operation_value(alloc, graph, at, op, v),
    }
}

#[tactic(auto, using(crate::proofs::Grown::adds_nothing))]
/// An operator on the first two arguments; there are two.
fn on_two(
    alloc: Global,
    graph: &mut Graph,
    at: At,
    op: Binary,
    args: &[ScriptRef<'_>],
) -> Result<ScriptValue, ValueFault>
    requires lower { All (IsLower (at_seen at)) graph.old }
    requires within { All (IsLent (length graph.old)) args.now }
    ensures extends { Extends (at_seen at) graph.old graph.new }
    ensures within { IfOk result (IsValue (length graph.new)) }
    ensures given { Means graph.new value_at (λ f. binary_value (at_seen at) op (get_or (map (lent_at f) args.now) 0 (datastore 0)) (get_or (map (lent_at f) args.now) 1 (datastore 0))) result }
{
    if args.len() < 2 {
        return Err(ValueFault::Memory);
    }
    binary_value(alloc, graph, at, op, &args[0], &args[1])
}

#[tactic(auto, unfolding(tall_script::specs::ScriptValues::application_value), using(crate::proofs::Grown::adds_nothing, crate::proofs::Grown::in_memory_within))]
/// An application on the arguments whose form told it.
fn application_value(
    alloc: Global,
    graph: &mut Graph,
    at: At,
    application: &Application<'_, '_>,
    args: &[ScriptRef<'_>],
) -> Result<ScriptValue, ValueFault>
    requires lower { All (IsLower (at_seen at)) graph.old }
    requires within { All (IsLent (length graph.old)) args.now }
    ensures extends { Extends (at_seen at) graph.old graph.new }
    ensures within { IfOk result (IsValue (length graph.new)) }
    ensures given { Means graph.new value_at (λ f. application_value (at_seen at) (with_operands (map (lent_at f) args.now) (application_seen application.now))) result }
{
    match application {
        Application::Constant(c) => in_memory(alloc, MemoryValue::scalar(alloc, c)),
        Application::ToOne(op, _) => on_first(alloc, graph, at, op, args),
        Application::ToTwo(op, _, _) => on_two(alloc, graph, at, *op, args),
    }
}

/// A value in memory that tells of a call's form what an argument tells; what is no scalar in memory tells nothing.
fn stand_in<'a>(v: &ScriptRef<'a>) -> MemoryRef<'a>
    ensures { (f : ℕ → Tall) → AreAlike (memory.scalar_in (ref_seen result)) (scalar_given (lent_at f v.now)) }
{
    match v {
        ScriptRef::Memory(v) => lent_again(v),
        ScriptRef::Tall(_) => MemoryRef::Scalar(Cell::Logical(false)),
        ScriptRef::Table(_) => MemoryRef::Scalar(Cell::Logical(false)),
        ScriptRef::Datastore(_) => MemoryRef::Scalar(Cell::Logical(false)),
    }
}

#[tactic(auto, using(crate::proofs::Grown::adds_nothing))]
/// The answer of a call, once it is known what it applies.
fn application_answer(
    alloc: Global,
    graph: &mut Graph,
    at: At,
    application: &Option<Application<'_, '_>>,
    args: &[ScriptRef<'_>],
) -> Result<ScriptValue, ValueFault>
    requires lower { All (IsLower (at_seen at)) graph.old }
    requires within { All (IsLent (length graph.old)) args.now }
    ensures extends { Extends (at_seen at) graph.old graph.new }
    ensures within { IfOk result (IsValue (length graph.new)) }
    ensures given { Means graph.new value_at (λ f. application_answer (at_seen at) (option_map (with_operands (map (lent_at f) args.now)) (option_map application_seen application.now))) result }
{
    match application {
        Some(application) => application_value(alloc, graph, at, application, args),
        None => Err(ValueFault::BadArgument),
    }
}

/// A call with one argument.
fn call_with_one(
    alloc: Global,
    graph: &mut Graph,
    at: At,
    function: ValueFunction,
    args: &[ScriptRef<'_>],
) -> Result<ScriptValue, ValueFault>
    requires count { length args.now ≡ 1 }
    requires lower { All (IsLower (at_seen at)) graph.old }
    requires within { All (IsLent (length graph.old)) args.now }
    ensures extends { Extends (at_seen at) graph.old graph.new }
    ensures within { IfOk result (IsValue (length graph.new)) }
    ensures given { Means graph.new value_at (λ f. application_answer (at_seen at) (application scalar_given function (map (lent_at f) args.now))) result }
{
    let x = stand_in(&args[0]);
    let forms = [x];
    let application = application_of(function, &forms);
    application_answer(alloc, graph, at, &application, args)
}

/// A call with two arguments.
fn call_with_two(
    alloc: Global,
    graph: &mut Graph,
    at: At,
    function: ValueFunction,
    args: &[ScriptRef<'_>],
) -> Result<ScriptValue, ValueFault>
    requires count { length args.now ≡ 2 }
    requires lower { All (IsLower (at_seen at)) graph.old }
    requires within { All (IsLent (length graph.old)) args.now }
    ensures extends { Extends (at_seen at) graph.old graph.new }
    ensures within { IfOk result (IsValue (length graph.new)) }
    ensures given { Means graph.new value_at (λ f. application_answer (at_seen at) (application scalar_given function (map (lent_at f) args.now))) result }
{
    let x = stand_in(&args[0]);
    let y = stand_in(&args[1]);
    let forms = [x, y];
    let application = application_of(function, &forms);
    application_answer(alloc, graph, at, &application, args)
}

/// A call with three arguments.
fn call_with_three(
    alloc: Global,
    graph: &mut Graph,
    at: At,
    function: ValueFunction,
    args: &[ScriptRef<'_>],
) -> Result<ScriptValue, ValueFault>
    requires count { length args.now ≡ 3 }
    requires lower { All (IsLower (at_seen at)) graph.old }
    requires within { All (IsLent (length graph.old)) args.now }
    ensures extends { Extends (at_seen at) graph.old graph.new }
    ensures within { IfOk result (IsValue (length graph.new)) }
    ensures given { Means graph.new value_at (λ f. application_answer (at_seen at) (application scalar_given function (map (lent_at f) args.now))) result }
{
    let x = stand_in(&args[0]);
    let y = stand_in(&args[1]);
    let z = stand_in(&args[2]);
    let forms = [x, y, z];
    let application = application_of(function, &forms);
    application_answer(alloc, graph, at, &application, args)
}

/// A call with four arguments.
fn call_with_four(
    alloc: Global,
    graph: &mut Graph,
    at: At,
    function: ValueFunction,
    args: &[ScriptRef<'_>],
) -> Result<ScriptValue, ValueFault>
    requires count { length args.now ≡ 4 }
    requires lower { All (IsLower (at_seen at)) graph.old }
    requires within { All (IsLent (length graph.old)) args.now }
    ensures extends { Extends (at_seen at) graph.old graph.new }
    ensures within { IfOk result (IsValue (length graph.new)) }
    ensures given { Means graph.new value_at (λ f. application_answer (at_seen at) (application scalar_given function (map (lent_at f) args.now))) result }
{
    let x = stand_in(&args[0]);
    let y = stand_in(&args[1]);
    let z = stand_in(&args[2]);
    let w = stand_in(&args[3]);
    let forms = [x, y, z, w];
    let application = application_of(function, &forms);
    application_answer(alloc, graph, at, &application, args)
}

#[tactic(auto, using(crate::proofs::Grown::adds_nothing))]
/// A function of values, on arguments that are all values; none takes more than four.
///
/// Asked are nodes of this graph, and that the expressions of the graph so far have lower numbers.
pub fn function_value(
    alloc: Global,
    graph: &mut Graph,
    at: At,
    function: ValueFunction,
    args: &[ScriptRef<'_>],
) -> Result<ScriptValue, ValueFault>
    requires lower { All (IsLower (at_seen at)) graph.old }
    requires within { All (IsLent (length graph.old)) args.now }
    ensures extends { Extends (at_seen at) graph.old graph.new }
    ensures within { IfOk result (IsValue (length graph.new)) }
    ensures given { Means graph.new value_at (λ f. application_answer (at_seen at) (application scalar_given function (map (lent_at f) args.now))) result }
{
    let count = args.len();
    if count == 1 {
        return call_with_one(alloc, graph, at, function, args);
    }
    if count == 2 {
        return call_with_two(alloc, graph, at, function, args);
    }
    if count == 3 {
        return call_with_three(alloc, graph, at, function, args);
    }
    if count == 4 {
        return call_with_four(alloc, graph, at, function, args);
    }
    Err(ValueFault::BadArgument)
}
