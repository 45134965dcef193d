//! One pass of a plan.
ghost use Rattle.std.specs.Prelude.{◌≡◌, ◌<◌, IfOk, length};
ghost use Rattle.std.specs.List.{filter};
ghost use Rattle.tall_semantics.specs.Deferred.{AllBelow};
ghost use Rattle.tall_semantics.specs.Plans.{is_of_level, is_scan, is_store, is_work, work_of};
ghost use Rattle.tall_graph.specs.Vertices.{made_of};
ghost use Rattle.tall_plan.specs.Marks.{AreMarked, IsNext, earlier, offer};
ghost use Rattle.tall_plan.specs.Seen.{is_collected};

use std::alloc::{AllocError, Global};
use tall_graph::{Graph, NodeId, NodeOp};

/// A pass over a datastore: what it computes, and whose columns it keeps.
#[derive(Drop)]
pub struct Pass {
    /// The datastore's number.
    pub store: u32,
    /// The level, from 1.
    pub level: u64,
    /// The nodes that are computed, so that their faults are found, by ascending places. A scan stands here also at the level
    /// of its chain, for its carries.
    pub work: Vec<NodeId>,
    /// The roots with the datastore's rows at this level, whose columns are kept.
    pub collect: Vec<NodeId>,
}

/// The passes of a gather, level by level and of a level by ascending datastores.
#[derive(Drop)]
pub struct Plan {
    pub passes: Vec<Pass>,
}

fn is_scan(op: &NodeOp) -> bool
    ensures { result ≡ is_scan (made_of op.now) }
{
    match op {
        NodeOp::Scan(_) => true,
        NodeOp::Stored { .. }
        | NodeOp::Constant(_)
        | NodeOp::Unary(_)
        | NodeOp::Binary(_)
        | NodeOp::Filter
        | NodeOp::Reduce(_)
        | NodeOp::Head(_)
        | NodeOp::Tail(_)
        | NodeOp::Distinct
        | NodeOp::Group { .. } => false,
    }
}

/// Whether a node is computed at this level, or is a scan that is gone through at it.
fn is_of_level(graph: &Graph, n: NodeId, level: u64) -> bool
    requires { n < length graph.now }
    ensures { result ≡ is_of_level graph.now level n }
{
    let scan = is_scan(graph.op_of(n));
    graph.level_of(n) == level || (scan && graph.chain_of(n) == level)
}

fn is_store(store: u32, rows: Option<u32>) -> bool
    ensures { result ≡ is_store store rows }
{
    match rows {
        None => false,
        Some(s) => s == store,
    }
}

fn is_work(graph: &Graph, n: NodeId, store: u32, level: u64) -> bool
    requires { n < length graph.now }
    ensures { result ≡ is_work graph.now store level n }
{
    is_store(store, graph.store_of(n)) && is_of_level(graph, n, level)
}

/// The datastore that a node needs a pass over at this level.
fn offer(graph: &Graph, n: NodeId, level: u64) -> Option<u32>
    requires { n < length graph.now }
    ensures { result ≡ offer graph.now level n }
{
    if is_of_level(graph, n, level) {
        graph.store_of(n)
    } else {
        None
    }
}

fn earlier(from: u64, next: Option<u32>, store: Option<u32>) -> Option<u32>
    ensures { result ≡ earlier from next store }
{
    match store {
        None => next,
        Some(s) => match next {
            None => { if (s as u64) < from { None } else { Some(s) } }
            Some(t) => {
                if (s as u64) < from {
                    Some(t)
                } else if s < t {
                    Some(s)
                } else {
                    Some(t)
                }
            }
        },
    }
}

/// The first datastore from this number on that a needed node needs a pass over at this level.
pub(crate) fn next_store(graph: &Graph, needed: &[NodeId], level: u64, from: u64) -> Option<u32>
    requires { AllBelow (length graph.now) needed.now }
    ensures { IsNext graph.now level from needed.now result }
{
    let mut next = None;
    for n in needed {
        next = earlier(from, next, offer(graph, *n, level));
    }
    next
}

/// The needed nodes that the pass computes.
fn work(
    alloc: Global,
    graph: &Graph,
    needed: &[NodeId],
    store: u32,
    level: u64,
) -> Result<Vec<NodeId>, AllocError>
    requires { AllBelow (length graph.now) needed.now }
    ensures { IfOk result (λ v. v.items ≡ work_of graph.now needed.now store level) }
{
    let mut work = Vec::new(alloc);
    for n in needed {
        if is_work(graph, *n, store, level) {
            work.push(*n)?;
        }
    }
    Ok(work)
}

/// Whether the pass keeps the node's column: a root with the datastore's rows, at its level.
fn is_collected(
    graph: &Graph,
    roots: &[NodeId],
    is_root: &Vec<bool>,
    n: NodeId,
    store: u32,
    level: u64,
) -> bool
    requires there { n < length graph.now }
    requires length { length is_root.now.items ≡ length graph.now }
    requires marks { AreMarked is_root.now.items (length graph.now) roots.now }
    ensures { result ≡ is_collected graph.now roots.now store level n }
{
    let place = n.place();
    is_root[place] && (is_store(store, graph.rows_of(n)) && graph.level_of(n) == level)
}

fn collect(
    alloc: Global,
    graph: &Graph,
    roots: &[NodeId],
    is_root: &Vec<bool>,
    needed: &[NodeId],
    store: u32,
    level: u64,
) -> Result<Vec<NodeId>, AllocError>
    requires below { AllBelow (length graph.now) needed.now }
    requires length { length is_root.now.items ≡ length graph.now }
    requires marks { AreMarked is_root.now.items (length graph.now) roots.now }
    ensures { IfOk result (λ v. v.items ≡ filter (is_collected graph.now roots.now store level) needed.now) }
{
    let mut kept = Vec::new(alloc);
    for n in needed {
        if is_collected(graph, roots, is_root, *n, store, level) {
            kept.push(*n)?;
        }
    }
    Ok(kept)
}

/// The pass of a level over a datastore.
pub(crate) fn pass_over(
    alloc: Global,
    graph: &Graph,
    roots: &[NodeId],
    is_root: &Vec<bool>,
    needed: &[NodeId],
    store: u32,
    level: u64,
) -> Result<Pass, AllocError>
    requires below { AllBelow (length graph.now) needed.now }
    requires length { length is_root.now.items ≡ length graph.now }
    requires marks { AreMarked is_root.now.items (length graph.now) roots.now }
    ensures store { IfOk result (λ p. p.store ≡ store) }
    ensures level { IfOk result (λ p. p.level ≡ level) }
    ensures work { IfOk result (λ p. p.work.items ≡ work_of graph.now needed.now store level) }
    ensures collect { IfOk result (λ p. p.collect.items ≡ filter (is_collected graph.now roots.now store level) needed.now) }
{
    let work = work(alloc, graph, needed, store, level)?;
    let collect = collect(alloc, graph, roots, is_root, needed, store, level)?;
    Ok(Pass {
        store,
        level,
        work,
        collect,
    })
}
