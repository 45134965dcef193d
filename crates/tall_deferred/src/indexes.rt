//! Indexes of values of a script (docs/LANGUAGE.md, operators).
ghost use Rattle.std.specs.Prelude.{◌≡◌, ◌<◌, Err, IfOk, Some, ℕ, if◌then◌else◌, length};
ghost use Rattle.std.specs.List.{All};
ghost use Rattle.tall_semantics.specs.Deferred.{IsMeaning};
ghost use Rattle.tall_semantics.specs.Faults as semantics;
ghost use Rattle.tall_semantics.specs.Talls.{Columns, Tall};
ghost use Rattle.tall_local.specs.Arguments.{all_variables_at, rows_at};
ghost use Rattle.tall_local.specs.Memory as memory;
ghost use Rattle.tall_local.specs.MemoryIndexing.{is_logical};
ghost use Rattle.tall_local.specs.Refusals.{bad_argument};
ghost use Rattle.tall_local.specs.Values.{deferred, in_memory, tall_table};
ghost use Rattle.tall_script.specs.ScriptValues.{index_value_of, is_tall_scalar, memory_index_of_tall, tall_column_index, tall_index_of_memory, tall_table_index};
ghost use Rattle.tall_script.specs.VertexLaws.{IsLower};
ghost use Rattle.tall_memory.specs.Values.{ref_seen};
ghost use Rattle.tall_deferred.specs.Answers.{Comes, Extends, Means};
ghost use Rattle.tall_deferred.specs.Faults.{IsDue};
ghost use Rattle.tall_deferred.specs.Values.{IsIndex, IsInMemory, IsLent, IsValue, IsVariable, at_seen, index_at, lent_at, value_at, variables_at};

use crate::faults::ValueFault;
use crate::nodes::{deferring, in_memory};
use crate::rows::{RowsKept, kept_table};
use crate::values::{At, ScriptIndex, ScriptRef, ScriptValue, Variable, lent_again};
use std::alloc::Global;
use tall_column::Column;
use tall_graph::{Graph, NodeId, NodeOp};
use tall_memory::{Index, MemoryRef, memory_index};
use tall_value::Class;

fn is_logical(class: Class) -> bool
    ensures { result ≡ is_logical class }
{
    matches!(class, Class::Logical)
}

/// The fault of a tall index where what is indexed is in memory: its class is looked at first; a tall scalar is no index.
fn tall_index_of_memory(graph: &Graph, i: NodeId) -> ValueFault
    requires { i < length graph.now }
    ensures { (columns : Columns) (f : ℕ → Tall) → IsMeaning columns graph.now f → IsDue (tall_index_of_memory (f i)) result }
{
    graph.keeps_its_rules();
    let scalar = graph.is_scalar(i);
    let class = graph.class_of(i);
    let logical = is_logical(class);
    if scalar {
        ValueFault::BadArgument
    } else if logical {
        ValueFault::Incompatible
    } else {
        ValueFault::BadClass
    }
}

/// The fault of an index in memory where what is indexed is tall.
fn memory_index_of_tall(i: &MemoryRef<'_>) -> ValueFault
    ensures { IsDue (memory_index_of_tall (ref_seen i.now)) result }
{
    match i {
        MemoryRef::Column(mask) => column_index_of_tall(mask),
        MemoryRef::Scalar(_) => ValueFault::BadArgument,
        MemoryRef::Table(_) => ValueFault::BadArgument,
        MemoryRef::Texts(_) => ValueFault::BadArgument,
    }
}

fn column_index_of_tall(mask: &Column) -> ValueFault
    ensures { IsDue (memory_index_of_tall (memory.column mask.now)) result }
{
    if is_logical(mask.class()) {
        ValueFault::Incompatible
    } else {
        ValueFault::BadArgument
    }
}

/// The fault of an index in memory of a tall column; any index on a scalar is refused.
fn memory_index_of_column(graph: &Graph, x: NodeId, i: &MemoryRef<'_>) -> ValueFault
    requires { x < length graph.now }
    ensures { (columns : Columns) (f : ℕ → Tall) → IsMeaning columns graph.now f → IsDue (if is_tall_scalar (f x) then Err bad_argument else memory_index_of_tall (ref_seen i.now)) result }
{
    graph.keeps_its_rules();
    let scalar = graph.is_scalar(x);
    if scalar {
        ValueFault::BadArgument
    } else {
        memory_index_of_tall(i)
    }
}

#[tactic(auto, using(crate::proofs::Grown::adds_nothing))]
/// `x(i)` of a tall column.
fn tall_column_index(
    graph: &mut Graph,
    at: At,
    x: NodeId,
    i: &ScriptRef<'_>,
) -> Result<ScriptValue, ValueFault>
    requires lower { All (IsLower (at_seen at)) graph.old }
    requires column { x < length graph.old }
    requires index { IsLent (length graph.old) i.now }
    ensures extends { Extends (at_seen at) graph.old graph.new }
    ensures within { IfOk result (IsValue (length graph.new)) }
    ensures given { Means graph.new value_at (λ f. tall_column_index (at_seen at) (f x) (lent_at f i.now)) result }
{
    match i {
        ScriptRef::Tall(mask) => deferring(graph, at, NodeOp::Filter, &[x, *mask]),
        ScriptRef::Memory(i) => Err(memory_index_of_column(graph, x, i)),
        ScriptRef::Table(_) => Err(ValueFault::BadArgument),
        ScriptRef::Datastore(_) => Err(ValueFault::BadArgument),
    }
}

#[tactic(auto, using(crate::proofs::Grown::adds_nothing))]
/// `T(i, :)` of a tall table.
fn tall_table_index(
    alloc: Global,
    graph: &mut Graph,
    at: At,
    variables: &[Variable],
    i: &ScriptRef<'_>,
) -> Result<ScriptValue, ValueFault>
    requires lower { All (IsLower (at_seen at)) graph.old }
    requires table { All (IsVariable (length graph.old)) variables.now }
    requires index { IsLent (length graph.old) i.now }
    ensures extends { Extends (at_seen at) graph.old graph.new }
    ensures within { IfOk result (IsValue (length graph.new)) }
    ensures given { Means graph.new value_at (λ f. tall_table_index (at_seen at) (variables_at f variables.now) (lent_at f i.now)) result }
{
    match i {
        ScriptRef::Tall(mask) => {
            kept_table(alloc, graph, at, &RowsKept::Masked(*mask), variables)
        }
        ScriptRef::Memory(i) => Err(memory_index_of_tall(i)),
        ScriptRef::Table(_) => Err(ValueFault::BadArgument),
        ScriptRef::Datastore(_) => Err(ValueFault::BadArgument),
    }
}

/// The fault of `v(i)` of a value in memory by a tall index.
fn tall_rows_of_memory(graph: &Graph, v: &MemoryRef<'_>, i: NodeId) -> ValueFault
    requires { i < length graph.now }
    ensures { (at : semantics.At) (columns : Columns) (f : ℕ → Tall) → IsMeaning columns graph.now f → IsDue (index_value_of at (in_memory (ref_seen v.now)) (Some (rows_at (deferred (f i))))) result }
{
    match v {
        MemoryRef::Column(_) => tall_index_of_memory(graph, i),
        MemoryRef::Scalar(_) => ValueFault::BadArgument,
        MemoryRef::Table(_) => ValueFault::BadArgument,
        MemoryRef::Texts(_) => ValueFault::BadArgument,
    }
}

/// The fault of `v(i, :)` of a value in memory by a tall index.
fn tall_rows_of_table(graph: &Graph, v: &MemoryRef<'_>, i: NodeId) -> ValueFault
    requires { i < length graph.now }
    ensures { (at : semantics.At) (columns : Columns) (f : ℕ → Tall) → IsMeaning columns graph.now f → IsDue (index_value_of at (in_memory (ref_seen v.now)) (Some (all_variables_at (deferred (f i))))) result }
{
    match v {
        MemoryRef::Table(_) => tall_index_of_memory(graph, i),
        MemoryRef::Scalar(_) => ValueFault::BadArgument,
        MemoryRef::Column(_) => ValueFault::BadArgument,
        MemoryRef::Texts(_) => ValueFault::BadArgument,
    }
}

/// `v(i)` of a value in memory.
fn memory_rows(
    alloc: Global,
    graph: &Graph,
    v: &MemoryRef<'_>,
    i: &ScriptRef<'_>,
) -> Result<ScriptValue, ValueFault>
    requires { IsLent (length graph.now) i.now }
    ensures memory { IfOk result IsInMemory }
    ensures given { (at : semantics.At) (columns : Columns) (f : ℕ → Tall) → IsMeaning columns graph.now f → Comes (value_at f) (index_value_of at (in_memory (ref_seen v.now)) (Some (rows_at (lent_at f i.now)))) result }
{
    match i {
        ScriptRef::Memory(i) => {
            let index = Index::Rows(lent_again(i));
            in_memory(alloc, memory_index(alloc, v, &index))
        }
        ScriptRef::Tall(i) => Err(tall_rows_of_memory(graph, v, *i)),
        ScriptRef::Table(_) => Err(ValueFault::BadArgument),
        ScriptRef::Datastore(_) => Err(ValueFault::BadArgument),
    }
}

/// `v(i, :)` of a value in memory.
fn memory_table_rows(
    alloc: Global,
    graph: &Graph,
    v: &MemoryRef<'_>,
    i: &ScriptRef<'_>,
) -> Result<ScriptValue, ValueFault>
    requires { IsLent (length graph.now) i.now }
    ensures memory { IfOk result IsInMemory }
    ensures given { (at : semantics.At) (columns : Columns) (f : ℕ → Tall) → IsMeaning columns graph.now f → Comes (value_at f) (index_value_of at (in_memory (ref_seen v.now)) (Some (all_variables_at (lent_at f i.now)))) result }
{
    match i {
        ScriptRef::Memory(i) => {
            let index = Index::AllVariables(lent_again(i));
            in_memory(alloc, memory_index(alloc, v, &index))
        }
        ScriptRef::Tall(i) => Err(tall_rows_of_table(graph, v, *i)),
        ScriptRef::Table(_) => Err(ValueFault::BadArgument),
        ScriptRef::Datastore(_) => Err(ValueFault::BadArgument),
    }
}

/// An index of a value in memory.
fn index_of_memory(
    alloc: Global,
    graph: &Graph,
    v: &MemoryRef<'_>,
    index: &ScriptIndex<'_>,
) -> Result<ScriptValue, ValueFault>
    requires { IsIndex (length graph.now) index.now }
    ensures memory { IfOk result IsInMemory }
    ensures given { (at : semantics.At) (columns : Columns) (f : ℕ → Tall) → IsMeaning columns graph.now f → Comes (value_at f) (index_value_of at (in_memory (ref_seen v.now)) (index_at f index.now)) result }
{
    match index {
        ScriptIndex::Rows(i) => memory_rows(alloc, graph, v, i),
        ScriptIndex::AllVariables(i) => memory_table_rows(alloc, graph, v, i),
        ScriptIndex::OtherForm => Err(ValueFault::BadArgument),
    }
}

#[tactic(auto, using(crate::proofs::Grown::adds_nothing))]
/// An index of a tall column or scalar.
fn index_of_tall(
    graph: &mut Graph,
    at: At,
    x: NodeId,
    index: &ScriptIndex<'_>,
) -> Result<ScriptValue, ValueFault>
    requires lower { All (IsLower (at_seen at)) graph.old }
    requires column { x < length graph.old }
    requires index { IsIndex (length graph.old) index.now }
    ensures extends { Extends (at_seen at) graph.old graph.new }
    ensures within { IfOk result (IsValue (length graph.new)) }
    ensures given { Means graph.new value_at (λ f. index_value_of (at_seen at) (deferred (f x)) (index_at f index.now)) result }
{
    match index {
        ScriptIndex::Rows(i) => tall_column_index(graph, at, x, i),
        ScriptIndex::AllVariables(_) => Err(ValueFault::BadArgument),
        ScriptIndex::OtherForm => Err(ValueFault::BadArgument),
    }
}

#[tactic(auto, using(crate::proofs::Grown::adds_nothing))]
/// An index of a tall table.
fn index_of_table(
    alloc: Global,
    graph: &mut Graph,
    at: At,
    variables: &[Variable],
    index: &ScriptIndex<'_>,
) -> Result<ScriptValue, ValueFault>
    requires lower { All (IsLower (at_seen at)) graph.old }
    requires table { All (IsVariable (length graph.old)) variables.now }
    requires index { IsIndex (length graph.old) index.now }
    ensures extends { Extends (at_seen at) graph.old graph.new }
    ensures within { IfOk result (IsValue (length graph.new)) }
    ensures given { Means graph.new value_at (λ f. index_value_of (at_seen at) (tall_table (variables_at f variables.now)) (index_at f index.now)) result }
{
    match index {
        ScriptIndex::AllVariables(i) => tall_table_index(alloc, graph, at, variables, i),
        ScriptIndex::Rows(_) => Err(ValueFault::BadArgument),
        ScriptIndex::OtherForm => Err(ValueFault::BadArgument),
    }
}

#[tactic(auto, using(crate::proofs::Grown::adds_nothing, crate::proofs::Grown::in_memory_within))]
/// The rows of a value at an index: of a column those that a mask keeps or one by its place from 1, of a table those that a mask
/// keeps.
///
/// Asked are nodes of this graph, and that the expressions of the graph so far have lower numbers.
pub fn index_value(
    alloc: Global,
    graph: &mut Graph,
    at: At,
    v: &ScriptRef<'_>,
    index: &ScriptIndex<'_>,
) -> Result<ScriptValue, ValueFault>
    requires lower { All (IsLower (at_seen at)) graph.old }
    requires value { IsLent (length graph.old) v.now }
    requires index { IsIndex (length graph.old) index.now }
    ensures extends { Extends (at_seen at) graph.old graph.new }
    ensures within { IfOk result (IsValue (length graph.new)) }
    ensures given { Means graph.new value_at (λ f. index_value_of (at_seen at) (lent_at f v.now) (index_at f index.now)) result }
{
    match v {
        ScriptRef::Memory(v) => index_of_memory(alloc, graph, v, index),
        ScriptRef::Tall(x) => index_of_tall(graph, at, *x, index),
        ScriptRef::Table(variables) => index_of_table(alloc, graph, at, variables, index),
        ScriptRef::Datastore(_) => Err(ValueFault::BadArgument),
    }
}
