//! Operations over tall values, as nodes of a graph.
ghost use Rattle.std.specs.Prelude.{◌≡◌, Err, IfOk, Ok, Result, ℕ, false, length, map};
ghost use Rattle.std.specs.List.{All};
ghost use Rattle.tall_semantics.specs.Additions.{MayAdd};
ghost use Rattle.tall_semantics.specs.Deferred.{AllBelow};
ghost use Rattle.tall_semantics.specs.Talls.{Tall};
ghost use Rattle.tall_local.specs.Memory as memory;
ghost use Rattle.tall_local.specs.Refusals.{Refusal};
ghost use Rattle.tall_local.specs.Values as of_values;
ghost use Rattle.tall_local.specs.Values.{memory_answer};
ghost use Rattle.tall_memory.specs.Values as values;
ghost use Rattle.tall_memory.specs.Values.{value_seen};
ghost use Rattle.tall_script.specs.ScriptValues.{refusal_of, tall_answer};
ghost use Rattle.tall_script.specs.VertexLaws.{IsLower};
ghost use Rattle.tall_graph.specs.Later.{IsOperation};
ghost use Rattle.tall_graph.specs.Vertices as graphs;
ghost use Rattle.tall_graph.specs.Vertices.{HasPart, is_memory, made_of, vertex};
ghost use Rattle.tall_deferred.specs.Answers.{Comes, Extends, IsPushed, Means, computed_of, node_at};
ghost use Rattle.tall_deferred.specs.Faults.{IsDue};
ghost use Rattle.tall_deferred.specs.Values.{IsInMemory, IsValue, at_seen, value_at};

use crate::faults::{ValueFault, of_memory};
use crate::values::{At, ScriptValue};
use std::alloc::Global;
use tall_graph::{Graph, GraphFault, NodeId, NodeOp};
use tall_memory::{MemoryFault, MemoryValue};

fn of_graph(fault: GraphFault) -> ValueFault
    ensures { (want : Result Tall Refusal) → (is_memory fault ≡ false → want ≡ Err (refusal_of (graphs.refusal_of fault))) → IsDue want result }
{
    match fault {
        GraphFault::MixedClass => ValueFault::MixedClass,
        GraphFault::BadClass => ValueFault::BadClass,
        GraphFault::Incompatible => ValueFault::Incompatible,
        GraphFault::BadArgument => ValueFault::BadArgument,
        GraphFault::Memory => ValueFault::Memory,
    }
}

/// The operation over nodes, as a node more.
pub(crate) fn computed(
    graph: &mut Graph,
    at: At,
    op: NodeOp,
    args: &[NodeId],
) -> Result<NodeId, ValueFault>
    requires part { HasPart op }
    requires operation { IsOperation (made_of op) }
    requires may { MayAdd graph.old (vertex at.number at.line op args.now) }
    ensures pushed { IsPushed graph.old (vertex at.number at.line op args.now) result graph.new }
    ensures means { Means graph.new node_at (λ f. computed_of (at_seen at) (made_of op) (map f args.now)) result }
{
    graph.keeps_its_rules();
    match graph.add_node(at.number, at.line, op, args) {
        Ok(node) => Ok(node),
        Err(fault) => Err(of_graph(fault)),
    }
}

#[tactic(auto, using(crate::proofs::Grown::may_add_made, crate::proofs::Grown::pushed_extends))]
/// The operation over nodes, as a tall value.
pub(crate) fn deferring(
    graph: &mut Graph,
    at: At,
    op: NodeOp,
    args: &[NodeId],
) -> Result<ScriptValue, ValueFault>
    requires part { HasPart op }
    requires operation { IsOperation (made_of op) }
    requires lower { All (IsLower (at_seen at)) graph.old }
    requires within { AllBelow (length graph.old) args.now }
    ensures extends { Extends (at_seen at) graph.old graph.new }
    ensures within { IfOk result (IsValue (length graph.new)) }
    ensures given { Means graph.new value_at (λ f. tall_answer (computed_of (at_seen at) (made_of op) (map f args.now))) result }
{
    match computed(graph, at, op, args) {
        Ok(node) => Ok(ScriptValue::Tall(node)),
        Err(fault) => Err(fault),
    }
}

/// A value in memory.
fn shared(alloc: Global, value: MemoryValue) -> Result<ScriptValue, ValueFault>
    ensures within { IfOk result IsInMemory }
    ensures given { (f : ℕ → Tall) → Comes (value_at f) (Ok (of_values.in_memory (value_seen value))) result }
{
    match ScriptValue::in_memory(alloc, value) {
        Ok(value) => Ok(value),
        Err(_) => Err(ValueFault::Memory),
    }
}

/// The answer of what is computed at once.
pub(crate) fn in_memory(
    alloc: Global,
    answer: Result<MemoryValue, MemoryFault>,
) -> Result<ScriptValue, ValueFault>
    ensures within { IfOk result IsInMemory }
    ensures given { (f : ℕ → Tall) (want : Result memory.Memory Refusal) → values.Gives want answer → Comes (value_at f) (memory_answer want) result }
{
    match answer {
        Ok(value) => shared(alloc, value),
        Err(fault) => Err(of_memory(fault)),
    }
}
