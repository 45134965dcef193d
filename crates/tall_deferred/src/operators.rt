//! Operators over values of a script (docs/LANGUAGE.md, operators).
ghost use Rattle.std.specs.Prelude.{◌≡◌, ◌<◌, IfOk, ℕ, length};
ghost use Rattle.std.specs.List.{All};
ghost use Rattle.tall_value.specs.Cells.{seen};
ghost use Rattle.tall_semantics.specs.Deferred.{IsMeaning};
ghost use Rattle.tall_semantics.specs.Operations as operation;
ghost use Rattle.tall_semantics.specs.Talls.{Columns, Tall};
ghost use Rattle.tall_local.specs.Values.{deferred, in_memory};
ghost use Rattle.tall_script.specs.ScriptValues.{beside_column, beside_scalar, binary_value, deferring, infix_value, is_scalar_value, prefix_value, unary_value};
ghost use Rattle.tall_script.specs.VertexLaws.{IsLower};
ghost use Rattle.tall_memory.specs.Values.{ref_seen};
ghost use Rattle.tall_deferred.specs.Answers.{Extends, Means};
ghost use Rattle.tall_deferred.specs.Faults.{IsDue};
ghost use Rattle.tall_deferred.specs.Operands.{beside_class, classes_beside, pair_of};
ghost use Rattle.tall_deferred.specs.Values.{IsLent, IsValue, at_seen, lent_at, value_at};

use crate::faults::{ValueFault, refused_class};
use crate::nodes::{computed, deferring, in_memory};
use crate::values::{At, ScriptRef, ScriptValue};
use std::alloc::Global;
use tall_column::Column;
use tall_grammar::{Infix, Prefix};
use tall_graph::{Graph, NodeId, NodeOp};
use tall_memory::{MemoryRef, binary_of, memory_binary, memory_unary, scalars_fit, unary_of};
use tall_value::{Binary, Cell, Class, ClassFault, Owned, Unary, result_class};

#[tactic(auto, using(crate::proofs::Grown::adds_nothing, crate::proofs::Grown::in_memory_within))]
/// An operator of one operand.
pub(crate) fn unary_value(
    alloc: Global,
    graph: &mut Graph,
    at: At,
    op: Unary,
    v: &ScriptRef<'_>,
) -> Result<ScriptValue, ValueFault>
    requires lower { All (IsLower (at_seen at)) graph.old }
    requires within { IsLent (length graph.old) v.now }
    ensures extends { Extends (at_seen at) graph.old graph.new }
    ensures within { IfOk result (IsValue (length graph.new)) }
    ensures given { Means graph.new value_at (λ f. unary_value (at_seen at) op (lent_at f v.now)) result }
{
    match v {
        ScriptRef::Memory(v) => in_memory(alloc, memory_unary(alloc, op, v)),
        ScriptRef::Tall(x) => deferring(graph, at, NodeOp::Unary(op), &[*x]),
        ScriptRef::Table(_) => Err(ValueFault::BadClass),
        ScriptRef::Datastore(_) => Err(ValueFault::BadClass),
    }
}

/// Two operands in their order: the second stands before the first where the flag is set.
fn pair_of(swapped: bool, x: NodeId, y: NodeId) -> [NodeId; 2]
    ensures { result ≡ pair_of swapped x y }
{
    if swapped { [y, x] } else { [x, y] }
}

#[tactic(auto, using(crate::proofs::Grown::adds_nothing, crate::proofs::Grown::no_more))]
/// A tall value and a scalar in memory, which meets each row.
fn beside_scalar(
    alloc: Global,
    graph: &mut Graph,
    at: At,
    op: Binary,
    x: NodeId,
    c: &Cell<'_>,
    swapped: bool,
) -> Result<ScriptValue, ValueFault>
    requires lower { All (IsLower (at_seen at)) graph.old }
    requires within { x < length graph.old }
    ensures extends { Extends (at_seen at) graph.old graph.new }
    ensures within { IfOk result (IsValue (length graph.new)) }
    ensures given { Means graph.new value_at (λ f. beside_scalar (at_seen at) (seen c.now) (λ y. deferring (at_seen at) (operation.binary op) (pair_of swapped (f x) y))) result }
{
    let cell = Owned::of(alloc, c)?;
    let made = computed(graph, at, NodeOp::Constant(cell), &[]);
    match made {
        Ok(constant) => {
            let args = pair_of(swapped, x, constant);
            let joined = computed(graph, at, NodeOp::Binary(op), &args);
            match joined {
                Ok(node) => Ok(ScriptValue::Tall(node)),
                Err(fault) => Err(fault),
            }
        }
        Err(fault) => Err(fault),
    }
}

fn classes_beside(
    op: Binary,
    class: Class,
    scalar: bool,
    column: Class,
    swapped: bool,
) -> Result<Class, ClassFault>
    ensures { result ≡ classes_beside op swapped class scalar column }
{
    if swapped {
        result_class(op, column, false, class, scalar)
    } else {
        result_class(op, class, scalar, column, false)
    }
}

/// The fault of a tall value and a column in memory, which meet in no operator: that of their classes goes first.
fn beside_column(graph: &Graph, op: Binary, x: NodeId, y: &Column, swapped: bool) -> ValueFault
    requires { x < length graph.now }
    ensures { (columns : Columns) (f : ℕ → Tall) → IsMeaning columns graph.now f → IsDue (beside_column (beside_class op swapped (f x) y.now.class)) result }
{
    graph.keeps_its_rules();
    let class = classes_beside(
        op,
        graph.class_of(x),
        graph.is_scalar(x),
        y.class(),
        swapped,
    );
    match class {
        Ok(_) => ValueFault::Incompatible,
        Err(fault) => refused_class(fault),
    }
}

#[tactic(auto, using(crate::proofs::Grown::adds_nothing))]
/// A tall value, and then a value in memory.
fn tall_and_memory(
    alloc: Global,
    graph: &mut Graph,
    at: At,
    op: Binary,
    x: NodeId,
    w: &MemoryRef<'_>,
) -> Result<ScriptValue, ValueFault>
    requires lower { All (IsLower (at_seen at)) graph.old }
    requires within { x < length graph.old }
    ensures extends { Extends (at_seen at) graph.old graph.new }
    ensures within { IfOk result (IsValue (length graph.new)) }
    ensures given { Means graph.new value_at (λ f. binary_value (at_seen at) op (deferred (f x)) (in_memory (ref_seen w.now))) result }
{
    match w {
        MemoryRef::Scalar(c) => beside_scalar(alloc, graph, at, op, x, c, false),
        MemoryRef::Column(y) => Err(beside_column(graph, op, x, y, false)),
        MemoryRef::Table(_) => Err(ValueFault::BadClass),
        MemoryRef::Texts(_) => Err(ValueFault::BadClass),
    }
}

#[tactic(auto, using(crate::proofs::Grown::adds_nothing))]
/// A value in memory, and then a tall value.
fn memory_and_tall(
    alloc: Global,
    graph: &mut Graph,
    at: At,
    op: Binary,
    v: &MemoryRef<'_>,
    y: NodeId,
) -> Result<ScriptValue, ValueFault>
    requires lower { All (IsLower (at_seen at)) graph.old }
    requires within { y < length graph.old }
    ensures extends { Extends (at_seen at) graph.old graph.new }
    ensures within { IfOk result (IsValue (length graph.new)) }
    ensures given { Means graph.new value_at (λ f. binary_value (at_seen at) op (in_memory (ref_seen v.now)) (deferred (f y))) result }
{
    match v {
        MemoryRef::Scalar(c) => beside_scalar(alloc, graph, at, op, y, c, true),
        MemoryRef::Column(x) => Err(beside_column(graph, op, y, x, true)),
        MemoryRef::Table(_) => Err(ValueFault::BadClass),
        MemoryRef::Texts(_) => Err(ValueFault::BadClass),
    }
}

#[tactic(auto, using(crate::proofs::Grown::adds_nothing))]
/// An operator with a tall value on its left.
fn after_tall(
    alloc: Global,
    graph: &mut Graph,
    at: At,
    op: Binary,
    x: NodeId,
    w: &ScriptRef<'_>,
) -> Result<ScriptValue, ValueFault>
    requires lower { All (IsLower (at_seen at)) graph.old }
    requires left { x < length graph.old }
    requires right { IsLent (length graph.old) w.now }
    ensures extends { Extends (at_seen at) graph.old graph.new }
    ensures within { IfOk result (IsValue (length graph.new)) }
    ensures given { Means graph.new value_at (λ f. binary_value (at_seen at) op (deferred (f x)) (lent_at f w.now)) result }
{
    match w {
        ScriptRef::Memory(w) => tall_and_memory(alloc, graph, at, op, x, w),
        ScriptRef::Tall(y) => deferring(graph, at, NodeOp::Binary(op), &[x, *y]),
        ScriptRef::Table(_) => Err(ValueFault::BadClass),
        ScriptRef::Datastore(_) => Err(ValueFault::BadClass),
    }
}

#[tactic(auto, using(crate::proofs::Grown::adds_nothing, crate::proofs::Grown::in_memory_within))]
/// An operator with a value in memory on its left.
fn after_memory(
    alloc: Global,
    graph: &mut Graph,
    at: At,
    op: Binary,
    v: &MemoryRef<'_>,
    w: &ScriptRef<'_>,
) -> Result<ScriptValue, ValueFault>
    requires lower { All (IsLower (at_seen at)) graph.old }
    requires right { IsLent (length graph.old) w.now }
    ensures extends { Extends (at_seen at) graph.old graph.new }
    ensures within { IfOk result (IsValue (length graph.new)) }
    ensures given { Means graph.new value_at (λ f. binary_value (at_seen at) op (in_memory (ref_seen v.now)) (lent_at f w.now)) result }
{
    match w {
        ScriptRef::Memory(w) => in_memory(alloc, memory_binary(alloc, op, v, w)),
        ScriptRef::Tall(y) => memory_and_tall(alloc, graph, at, op, v, *y),
        ScriptRef::Table(_) => Err(ValueFault::BadClass),
        ScriptRef::Datastore(_) => Err(ValueFault::BadClass),
    }
}

#[tactic(auto, using(crate::proofs::Grown::adds_nothing))]
/// An operator of two operands.
pub(crate) fn binary_value(
    alloc: Global,
    graph: &mut Graph,
    at: At,
    op: Binary,
    v: &ScriptRef<'_>,
    w: &ScriptRef<'_>,
) -> Result<ScriptValue, ValueFault>
    requires lower { All (IsLower (at_seen at)) graph.old }
    requires left { IsLent (length graph.old) v.now }
    requires right { IsLent (length graph.old) w.now }
    ensures extends { Extends (at_seen at) graph.old graph.new }
    ensures within { IfOk result (IsValue (length graph.new)) }
    ensures given { Means graph.new value_at (λ f. binary_value (at_seen at) op (lent_at f v.now) (lent_at f w.now)) result }
{
    match v {
        ScriptRef::Memory(v) => after_memory(alloc, graph, at, op, v, w),
        ScriptRef::Tall(x) => after_tall(alloc, graph, at, op, *x, w),
        ScriptRef::Table(_) => Err(ValueFault::BadClass),
        ScriptRef::Datastore(_) => Err(ValueFault::BadClass),
    }
}

/// A scalar in memory or a tall scalar.
pub(crate) fn is_scalar_value(graph: &Graph, v: &ScriptRef<'_>) -> bool
    requires { IsLent (length graph.now) v.now }
    ensures { (columns : Columns) (f : ℕ → Tall) → IsMeaning columns graph.now f → result ≡ is_scalar_value (lent_at f v.now) }
{
    graph.keeps_its_rules();
    match v {
        ScriptRef::Memory(v) => v.is_scalar(),
        ScriptRef::Tall(x) => graph.is_scalar(*x),
        ScriptRef::Table(_) => false,
        ScriptRef::Datastore(_) => false,
    }
}

/// An operator that stands before its operand.
///
/// Asked are nodes of this graph, and that the expressions of the graph so far have lower numbers.
pub fn prefix_value(
    alloc: Global,
    graph: &mut Graph,
    at: At,
    op: Prefix,
    v: &ScriptRef<'_>,
) -> Result<ScriptValue, ValueFault>
    requires lower { All (IsLower (at_seen at)) graph.old }
    requires within { IsLent (length graph.old) v.now }
    ensures extends { Extends (at_seen at) graph.old graph.new }
    ensures within { IfOk result (IsValue (length graph.new)) }
    ensures given { Means graph.new value_at (λ f. prefix_value (at_seen at) op (lent_at f v.now)) result }
{
    unary_value(alloc, graph, at, unary_of(op), v)
}

#[tactic(auto, using(crate::proofs::Grown::adds_nothing))]
/// An operator between its operands; for `*` and `/` the test on scalars comes before classes.
///
/// Asked are nodes of this graph, and that the expressions of the graph so far have lower numbers.
pub fn infix_value(
    alloc: Global,
    graph: &mut Graph,
    at: At,
    op: Infix,
    v: &ScriptRef<'_>,
    w: &ScriptRef<'_>,
) -> Result<ScriptValue, ValueFault>
    requires lower { All (IsLower (at_seen at)) graph.old }
    requires left { IsLent (length graph.old) v.now }
    requires right { IsLent (length graph.old) w.now }
    ensures extends { Extends (at_seen at) graph.old graph.new }
    ensures within { IfOk result (IsValue (length graph.new)) }
    ensures given { Means graph.new value_at (λ f. infix_value (at_seen at) op (lent_at f v.now) (lent_at f w.now)) result }
{
    let left = is_scalar_value(graph, v);
    let right = is_scalar_value(graph, w);
    let fit = scalars_fit(op, left, right);
    if fit {
        binary_value(alloc, graph, at, binary_of(op), v, w)
    } else {
        Err(ValueFault::BadArgument)
    }
}
