//! Groups of the rows of a tall table (docs/LANGUAGE.md, functions: groupsummary).
ghost use Rattle.std.specs.Prelude.{◌≡◌, ◌<◌, ◌++◌, ◌∷◌, [], IfOk, Ok, OnOk, ℕ, length, map, option_map};
ghost use Rattle.std.specs.List.{All};
ghost use Rattle.tall_value.specs.SummaryNames.{summary_names};
ghost use Rattle.tall_value.specs.declared.functions.Method.TheVariants as method;
ghost use Rattle.tall_value.specs.Names.{are_distinct};
ghost use Rattle.tall_semantics.specs.Deferred.{AllBelow};
ghost use Rattle.tall_semantics.specs.Talls.{Tall};
ghost use Rattle.tall_local.specs.Refusals.{and_then};
ghost use Rattle.tall_local.specs.Values.{tall_table};
ghost use Rattle.tall_script.specs.ScriptValues as script;
ghost use Rattle.tall_script.specs.ScriptValues.{group_columns, groups_value, parts_of, summary_table, tall_variable};
ghost use Rattle.tall_script.specs.VertexLaws.{IsLower};
ghost use Rattle.tall_functions.specs.Summaries.{names_with};
ghost use Rattle.tall_deferred.specs.Answers.{Comes, Extends, Means};
ghost use Rattle.tall_deferred.specs.Groups.{nodes_at, zipped};
ghost use Rattle.tall_deferred.specs.Values.{IsValue, IsVariable, at_seen, value_at, variables_at};

use crate::faults::ValueFault;
use crate::members::tall_variable;
use crate::nodes::computed;
use crate::values::{At, ScriptValue, Variable, add_variable};
use std::alloc::{AllocError, Global};
use tall_functions::{COUNT_NAME, are_distinct, value_name};
use tall_graph::{Graph, NodeId, NodeOp};
use tall_value::Method;

/// How many columns a method makes.
fn parts(method: Method) -> u8
    ensures { result ≡ length (parts_of method) }
{
    match method {
        Method::Count => 2,
        Method::Sum => 3,
        Method::SumNative => 3,
        Method::Min => 3,
        Method::Max => 3,
        Method::Nnz => 3,
        Method::Nummissing => 3,
    }
}

/// Adds a node at the end.
fn add(nodes: &mut Vec<NodeId>, node: NodeId) -> Result<(), AllocError>
    ensures { OnOk result (nodes.new.items ≡ nodes.old.items ++ node ∷ []) }
{
    Ok(nodes.push(node)?)
}

/// The columns that a method makes of a key, and of data where it takes them, as nodes more.
fn group_columns(
    alloc: Global,
    graph: &mut Graph,
    at: At,
    method: Method,
    args: &[NodeId],
) -> Result<Vec<NodeId>, ValueFault>
    requires lower { All (IsLower (at_seen at)) graph.old }
    requires within { AllBelow (length graph.old) args.now }
    ensures extends { Extends (at_seen at) graph.old graph.new }
    ensures within { IfOk result (λ nodes. AllBelow (length graph.new) nodes.items) }
    ensures count { IfOk result (λ nodes. length nodes.items ≡ length (parts_of method)) }
    ensures given { Means graph.new nodes_at (λ f. group_columns (at_seen at) method (map f args.now)) result }
{
    let count = parts(method);
    let mut nodes = Vec::new(alloc);
    for part in 0..count {
        let op = NodeOp::Group { method, part };
        let node = match computed(graph, at, op, args) {
            Ok(node) => node,
            Err(fault) => return Err(fault),
        };
        add(&mut nodes, node)?;
    }
    Ok(nodes)
}

/// The nodes under the names of a summary.
fn named(
    alloc: Global,
    key: &str,
    name: Option<&str>,
    nodes: &[NodeId],
) -> Result<Vec<Variable>, AllocError>
    requires { length nodes.now ≡ length (names_with key.now (option_map (λ s. s.now) name)) }
    ensures { IfOk result (λ xs. xs.items ≡ zipped (names_with key.now (option_map (λ s. s.now) name.entry)) nodes.now) }
{
    let mut variables = Vec::new(alloc);
    add_variable(alloc, &mut variables, key, nodes[0])?;
    add_variable(alloc, &mut variables, COUNT_NAME, nodes[1])?;
    match name {
        Some(name) => {
            add_variable(alloc, &mut variables, name, nodes[2])?;
            Ok(variables)
        }
        None => Ok(variables),
    }
}

/// The table of a summary, whose names have to be distinct.
fn named_table(
    alloc: Global,
    key: &str,
    name: Option<&str>,
    nodes: &[NodeId],
) -> Result<ScriptValue, ValueFault>
    requires { length nodes.now ≡ length (names_with key.now (option_map (λ s. s.now) name)) }
    ensures within { (n : ℕ) → AllBelow n nodes.now → IfOk result (IsValue n) }
    ensures given { (f : ℕ → Tall) → Comes (value_at f) (summary_table (names_with key.now (option_map (λ s. s.now) name.entry)) (Ok (map f nodes.now))) result }
{
    let distinct = are_distinct(key, name);
    if distinct {
        Ok(ScriptValue::Table(named(alloc, key, name, nodes)?))
    } else {
        Err(ValueFault::BadArgument)
    }
}

/// The table of a method's columns.
fn summary_table(
    alloc: Global,
    method: Method,
    key: &str,
    value: &str,
    nodes: &[NodeId],
) -> Result<ScriptValue, ValueFault>
    requires { length nodes.now ≡ length (parts_of method) }
    ensures within { (n : ℕ) → AllBelow n nodes.now → IfOk result (IsValue n) }
    ensures given { (f : ℕ → Tall) → Comes (value_at f) (summary_table (summary_names method key.now value.now) (Ok (map f nodes.now))) result }
{
    let name = value_name(alloc, method, value)?;
    match &name {
        Some(name) => named_table(alloc, key, Some(name.as_str()), nodes),
        None => named_table(alloc, key, None, nodes),
    }
}

/// The summary of these columns of a table.
fn summary(
    alloc: Global,
    graph: &mut Graph,
    at: At,
    method: Method,
    key: &str,
    value: &str,
    args: &[NodeId],
) -> Result<ScriptValue, ValueFault>
    requires lower { All (IsLower (at_seen at)) graph.old }
    requires within { AllBelow (length graph.old) args.now }
    ensures extends { Extends (at_seen at) graph.old graph.new }
    ensures within { IfOk result (IsValue (length graph.new)) }
    ensures given { Means graph.new value_at (λ f. summary_table (summary_names method key.now value.now) (script.group_columns (at_seen at) method (map f args.now))) result }
{
    match group_columns(alloc, graph, at, method, args) {
        Ok(nodes) => summary_table(alloc, method, key, value, nodes.as_slice()),
        Err(fault) => Err(fault),
    }
}

#[tactic(auto, using(crate::proofs::Grown::adds_nothing))]
/// The summary of the rows of a key's groups.
fn groups_of_rows(
    alloc: Global,
    graph: &mut Graph,
    at: At,
    variables: &[Variable],
    key: &str,
    value: &str,
) -> Result<ScriptValue, ValueFault>
    requires lower { All (IsLower (at_seen at)) graph.old }
    requires within { All (IsVariable (length graph.old)) variables.now }
    ensures extends { Extends (at_seen at) graph.old graph.new }
    ensures within { IfOk result (IsValue (length graph.new)) }
    ensures given { Means graph.new value_at (λ f. groups_value (at_seen at) (tall_table (variables_at f variables.now)) key.now method.Count value.now) result }
{
    match tall_variable(alloc, variables, key) {
        Ok(g) => summary(alloc, graph, at, Method::Count, key, value, &[g]),
        Err(fault) => Err(fault),
    }
}

#[tactic(auto, using(crate::proofs::Grown::adds_nothing))]
/// The summary of the data of a key's groups.
fn groups_of_data(
    alloc: Global,
    graph: &mut Graph,
    at: At,
    variables: &[Variable],
    key: &str,
    how: Method,
    value: &str,
) -> Result<ScriptValue, ValueFault>
    requires lower { All (IsLower (at_seen at)) graph.old }
    requires within { All (IsVariable (length graph.old)) variables.now }
    ensures extends { Extends (at_seen at) graph.old graph.new }
    ensures within { IfOk result (IsValue (length graph.new)) }
    ensures given { Means graph.new value_at (λ f. and_then (tall_variable (variables_at f variables.now) key.now) (λ g. and_then (tall_variable (variables_at f variables.now) value.now) (λ v. summary_table (summary_names how key.now value.now) (script.group_columns (at_seen at) how (g ∷ v ∷ []))))) result }
{
    match tall_variable(alloc, variables, key) {
        Ok(g) => match tall_variable(alloc, variables, value) {
            Ok(v) => summary(alloc, graph, at, how, key, value, &[g, v]),
            Err(missing) => Err(missing),
        },
        Err(fault) => Err(fault),
    }
}

/// The groups of a tall table's rows by a variable: their keys in rising order, `GroupCount`, and with a method what it gives of
/// each group's data.
pub(crate) fn groups_value(
    alloc: Global,
    graph: &mut Graph,
    at: At,
    variables: &[Variable],
    key: &str,
    how: Method,
    value: &str,
) -> Result<ScriptValue, ValueFault>
    requires lower { All (IsLower (at_seen at)) graph.old }
    requires within { All (IsVariable (length graph.old)) variables.now }
    ensures extends { Extends (at_seen at) graph.old graph.new }
    ensures within { IfOk result (IsValue (length graph.new)) }
    ensures given { Means graph.new value_at (λ f. groups_value (at_seen at) (tall_table (variables_at f variables.now)) key.now how value.now) result }
{
    match how {
        Method::Count => groups_of_rows(alloc, graph, at, variables, key, value),
        Method::Sum => groups_of_data(alloc, graph, at, variables, key, Method::Sum, value),
        Method::SumNative => {
            groups_of_data(alloc, graph, at, variables, key, Method::SumNative, value)
        }
        Method::Min => groups_of_data(alloc, graph, at, variables, key, Method::Min, value),
        Method::Max => groups_of_data(alloc, graph, at, variables, key, Method::Max, value),
        Method::Nnz => groups_of_data(alloc, graph, at, variables, key, Method::Nnz, value),
        Method::Nummissing => {
            groups_of_data(alloc, graph, at, variables, key, Method::Nummissing, value)
        }
    }
}
