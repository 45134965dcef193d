//! What a pass computes block by block, and what is wanted of it.
ghost use Rattle.std.specs.Prelude.{◌≡◌, ◌<◌, ◌++◌, ℕ, IfOk, IfSome, OnOk, length, map, slice_get};
ghost use Rattle.std.specs.List.{filter, flat_map};
ghost use Rattle.tall_semantics.specs.Deferred.{AllBelow, IsAmong};
ghost use Rattle.tall_graph.specs.Vertices.{made_of};
ghost use Rattle.tall_piece.specs.Joins.{AreWays};
ghost use Rattle.tall_pass.specs.Work.{AreAllWanted, IsOfPlan, asked_at, asked_of, carries_over, carries_way, computed_of, end_operation, end_over, end_way, has_rows_of, is_own, rows_wanted, wanted_at, wanted_of, work_way};

use std::alloc::{AllocError, Global};
use tall_graph::{Graph, NodeId, NodeOp};
use tall_part::EndOperation;
use tall_piece::{Wanted, Way};
use tall_plan::{Pass, needed_nodes};
use tall_value::Scan;

/// What a pass does on each block.
#[derive(Drop)]
pub(crate) struct PassWork {
    /// The nodes that are computed, by ascending places.
    pub(crate) all: Vec<NodeId>,
    /// The nodes of the pass with a result or with carries, each with the way in which it is told.
    pub(crate) wanted: Vec<Wanted>,
}

/// Whether a node has the datastore's rows.
fn has_rows_of(graph: &Graph, store: u32, n: NodeId) -> bool
    requires { n < length graph.now }
    ensures { result ≡ has_rows_of graph.now store n }
{
    match graph.rows_of(n) {
        None => false,
        Some(s) => s == store,
    }
}

/// Adds those of the nodes that have the datastore's rows.
fn add_with_rows(
    graph: &Graph,
    store: u32,
    nodes: &[NodeId],
    found: &mut Vec<NodeId>,
) -> Result<(), AllocError>
    requires { AllBelow (length graph.now) nodes.now }
    ensures { OnOk result (found.new.items ≡ found.old.items ++ filter (has_rows_of graph.now store) nodes.now) }
{
    for n in nodes {
        if has_rows_of(graph, store, *n) {
            found.push(*n)?;
        }
    }
    Ok(())
}

/// Whether a node has the datastore's rows and is of the level.
fn is_own(graph: &Graph, store: u32, level: u64, n: NodeId) -> bool
    requires { n < length graph.now }
    ensures { result ≡ is_own graph.now store level n }
{
    has_rows_of(graph, store, n) && graph.level_of(n) == level
}

/// Adds what a node of the work asks for: itself, or its operands with the datastore's rows.
fn add_asked(
    graph: &Graph,
    store: u32,
    level: u64,
    n: NodeId,
    asked: &mut Vec<NodeId>,
) -> Result<(), AllocError>
    requires { n < length graph.now }
    ensures { OnOk result (asked.new.items ≡ asked.old.items ++ asked_at graph.now store level n) }
{
    if is_own(graph, store, level, n) {
        asked.push(n)?;
        Ok(())
    } else {
        graph.keeps_its_rules();
        add_with_rows(graph, store, graph.args_of(n), asked)?;
        Ok(())
    }
}

/// What the work asks for.
fn asked(
    alloc: Global,
    graph: &Graph,
    store: u32,
    level: u64,
    work: &[NodeId],
) -> Result<Vec<NodeId>, AllocError>
    requires { AllBelow (length graph.now) work.now }
    ensures asked { IfOk result (λ a. a.items ≡ asked_of graph.now store level work.now) }
    ensures below { IfOk result (λ a. AllBelow (length graph.now) a.items) }
{
    graph.keeps_its_rules();
    let mut asked = Vec::new(alloc);
    for n in work {
        add_asked(graph, store, level, *n, &mut asked)?;
    }
    Ok(asked)
}

/// What the pass computes block by block: what its work asks for, with all that this is made of and that has the datastore's
/// rows.
fn computed(alloc: Global, graph: &Graph, pass: &Pass) -> Result<Vec<NodeId>, AllocError>
    requires { AllBelow (length graph.now) pass.now.work.items }
    ensures { IfOk result (λ v. v.items ≡ computed_of graph.now pass.now) }
{
    let asked = asked(alloc, graph, pass.store, pass.level, pass.work.as_slice())?;
    let needed = needed_nodes(alloc, graph, asked.as_slice())?;
    let mut all = Vec::new(alloc);
    add_with_rows(graph, pass.store, needed.as_slice(), &mut all)?;
    Ok(all)
}

/// The way of an operation that needs all rows of its operands.
fn end_over(operation: EndOperation, args: &[NodeId]) -> Option<Way>
    ensures { result ≡ end_over operation args.now }
{
    match args {
        [] => None,
        [first, behind @ ..] => match behind {
            [] => Some(Way::End {
                operation,
                first: *first,
                last: *first,
            }),
            [last, rest @ ..] => match rest {
                [] => Some(Way::End {
                    operation,
                    first: *first,
                    last: *last,
                }),
                [_, ..] => None,
            },
        },
    }
}

/// The way of a node at the end of the pass.
fn end_way(op: &NodeOp, args: &[NodeId]) -> Option<Way>
    ensures { result ≡ end_way (end_operation (made_of op.now)) args.now }
{
    match EndOperation::of(op) {
        Some(operation) => end_over(operation, args),
        None => None,
    }
}

/// The way of a scan over the operands.
fn carries_over(scan: Scan, args: &[NodeId]) -> Option<Way>
    ensures { result ≡ carries_over scan args.now }
{
    match args {
        [] => None,
        [operand, behind @ ..] => match behind {
            [] => Some(Way::Carries {
                scan,
                operand: *operand,
            }),
            [_, ..] => None,
        },
    }
}

/// The way of a node whose carries come with the pass; None for all but scans.
fn carries_way(op: &NodeOp, args: &[NodeId]) -> Option<Way>
    ensures { result ≡ carries_way (made_of op.now) args.now }
{
    match op {
        NodeOp::Scan(scan) => carries_over(*scan, args),
        NodeOp::Stored { .. } => None,
        NodeOp::Constant(_) => None,
        NodeOp::Unary(_) => None,
        NodeOp::Binary(_) => None,
        NodeOp::Filter => None,
        NodeOp::Reduce(_) => None,
        NodeOp::Head(_) => None,
        NodeOp::Tail(_) => None,
        NodeOp::Distinct => None,
        NodeOp::Group { .. } => None,
    }
}

/// In which way a node of the work is told; None where it has neither a result nor carries.
fn work_way(graph: &Graph, level: u64, n: NodeId) -> Option<Way>
    requires { n < length graph.now }
    ensures { result ≡ work_way graph.now level n (slice_get graph.now n) }
{
    match graph.rows_of(n) {
        None => end_way(graph.op_of(n), graph.args_of(n)),
        Some(_) => {
            if graph.chain_of(n) == level {
                carries_way(graph.op_of(n), graph.args_of(n))
            } else {
                None
            }
        }
    }
}

/// Adds a node of the work where it has a result or carries.
fn add_wanted(
    graph: &Graph,
    level: u64,
    n: NodeId,
    wanted: &mut Vec<Wanted>,
) -> Result<(), AllocError>
    requires { n < length graph.now }
    ensures { OnOk result (wanted.new.items ≡ wanted.old.items ++ wanted_at graph.now level n) }
{
    match work_way(graph, level, n) {
        None => Ok(()),
        Some(way) => {
            wanted.push(Wanted { node: n, way })?;
            Ok(())
        }
    }
}

/// Adds the nodes of the work with a result or with carries.
fn add_work(
    graph: &Graph,
    level: u64,
    work: &[NodeId],
    wanted: &mut Vec<Wanted>,
) -> Result<(), AllocError>
    requires { AllBelow (length graph.now) work.now }
    ensures { OnOk result (wanted.new.items ≡ wanted.old.items ++ flat_map (wanted_at graph.now level) work.now) }
{
    for n in work {
        add_wanted(graph, level, *n, wanted)?;
    }
    Ok(())
}

/// Adds the nodes whose columns are kept.
fn add_rows(collect: &[NodeId], wanted: &mut Vec<Wanted>) -> Result<(), AllocError>
    ensures { OnOk result (wanted.new.items ≡ wanted.old.items ++ map rows_wanted collect.now) }
{
    for n in collect {
        wanted.push(Wanted {
            node: *n,
            way: Way::Rows,
        })?;
    }
    Ok(())
}

/// What is wanted of the pass.
fn wanted(alloc: Global, graph: &Graph, pass: &Pass) -> Result<Vec<Wanted>, AllocError>
    requires { AllBelow (length graph.now) pass.now.work.items }
    ensures { IfOk result (λ v. v.items ≡ wanted_of graph.now pass.now) }
{
    let mut wanted = Vec::new(alloc);
    add_work(graph, pass.level, pass.work.as_slice(), &mut wanted)?;
    add_rows(pass.collect.as_slice(), &mut wanted)?;
    Ok(wanted)
}

/// What a pass of a plan does on each block. Refused for want of memory alone.
pub(crate) fn pass_work(alloc: Global, graph: &Graph, pass: &Pass) -> Result<PassWork, AllocError>
    requires planned { IsOfPlan graph.now pass.now }
    ensures all { IfOk result (λ w. w.all.items ≡ computed_of graph.now pass.now) }
    ensures wanted { IfOk result (λ w. w.wanted.items ≡ wanted_of graph.now pass.now) }
    ensures places { IfOk result (λ w. (i : ℕ) → IsAmong w.all.items i → i < length graph.now) }
    ensures ways { IfOk result (λ w. AreWays graph.now w.wanted.items) }
    ensures results { IfOk result (λ w. AreAllWanted graph.now pass.now w.wanted.items) }
{
    graph.keeps_its_rules();
    let all = computed(alloc, graph, pass)?;
    let wanted = wanted(alloc, graph, pass)?;
    Ok(PassWork { all, wanted })
}
