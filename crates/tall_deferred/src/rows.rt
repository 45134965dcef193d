//! The rows of tall columns and of tall tables that stay: the first, the last, or those that a mask keeps (docs/LANGUAGE.md,
//! operators and functions).
ghost use Rattle.std.specs.Prelude.{IfOk, length, map};
ghost use Rattle.std.specs.List.{All};
ghost use Rattle.tall_semantics.specs.Additions.{MayAdd};
ghost use Rattle.tall_script.specs.ScriptValues.{computed, over_columns, table_answer};
ghost use Rattle.tall_script.specs.VertexLaws as laws;
ghost use Rattle.tall_script.specs.VertexLaws.{IsLower};
ghost use Rattle.tall_deferred.specs.Answers.{Extends, IsPushed, Means, node_at};
ghost use Rattle.tall_deferred.specs.Rows.{IsMask, rows_args, rows_op, rows_talls};
ghost use Rattle.tall_deferred.specs.Values.{IsValue, IsVariable, at_seen, columns_at, value_at, variables_at};

use crate::faults::ValueFault;
use crate::nodes::computed;
use crate::values::{At, ScriptValue, Variable, add_variable};
use std::alloc::Global;
use tall_graph::{Graph, NodeId, NodeOp};

/// Which rows stay.
#[derive(Clone, Copy)]
pub(crate) enum RowsKept {
    /// The first rows, so many.
    First(u64),
    /// The last rows, so many.
    Last(u64),
    /// Those that a mask keeps.
    Masked(NodeId),
}

/// The rows of a column that stay, as a node more.
fn kept_column(graph: &mut Graph, at: At, rows: &RowsKept, x: NodeId) -> Result<NodeId, ValueFault>
    requires may { MayAdd graph.old (laws.vertex (at_seen at) (rows_op rows.now) (rows_args rows.now x)) }
    ensures pushed { IsPushed graph.old (laws.vertex (at_seen at) (rows_op rows.now) (rows_args rows.now x)) result graph.new }
    ensures means { Means graph.new node_at (λ f. computed (at_seen at) (rows_op rows.now) (map f (rows_args rows.now x))) result }
{
    match rows {
        RowsKept::First(k) => computed(graph, at, NodeOp::Head(*k), &[x]),
        RowsKept::Last(k) => computed(graph, at, NodeOp::Tail(*k), &[x]),
        RowsKept::Masked(mask) => computed(graph, at, NodeOp::Filter, &[x, *mask]),
    }
}

/// The rows of each column of a table that stay.
fn over_columns(
    alloc: Global,
    graph: &mut Graph,
    at: At,
    rows: &RowsKept,
    variables: &[Variable],
) -> Result<Vec<Variable>, ValueFault>
    requires lower { All (IsLower (at_seen at)) graph.old }
    requires within { All (IsVariable (length graph.old)) variables.now }
    requires mask { IsMask (length graph.old) rows.now }
    ensures extends { Extends (at_seen at) graph.old graph.new }
    ensures within { IfOk result (λ t. All (IsVariable (length graph.new)) t.items) }
    ensures given { Means graph.new columns_at (λ f. over_columns (λ x. computed (at_seen at) (rows_op rows.now) (rows_talls f rows.now x)) (variables_at f variables.now)) result }
{
    let mut kept = Vec::new(alloc);
    for variable in variables {
        let node = match kept_column(graph, at, rows, variable.node) {
            Ok(node) => node,
            Err(fault) => return Err(fault),
        };
        let name = variable.name.as_str();
        add_variable(alloc, &mut kept, name, node)?;
    }
    Ok(kept)
}

/// The rows of a table that stay.
pub(crate) fn kept_table(
    alloc: Global,
    graph: &mut Graph,
    at: At,
    rows: &RowsKept,
    variables: &[Variable],
) -> Result<ScriptValue, ValueFault>
    requires lower { All (IsLower (at_seen at)) graph.old }
    requires within { All (IsVariable (length graph.old)) variables.now }
    requires mask { IsMask (length graph.old) rows.now }
    ensures extends { Extends (at_seen at) graph.old graph.new }
    ensures within { IfOk result (IsValue (length graph.new)) }
    ensures given { Means graph.new value_at (λ f. table_answer (over_columns (λ x. computed (at_seen at) (rows_op rows.now) (rows_talls f rows.now x)) (variables_at f variables.now))) result }
{
    match over_columns(alloc, graph, at, rows, variables) {
        Ok(kept) => Ok(ScriptValue::Table(kept)),
        Err(fault) => Err(fault),
    }
}
