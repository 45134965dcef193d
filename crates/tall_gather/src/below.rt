//! What of a pass is numbered below the candidate.
ghost use Rattle.std.specs.Prelude.{◌≡◌, ◌<◌, IfOk, length};
ghost use Rattle.std.specs.List.{filter};
ghost use Rattle.tall_semantics.specs.Deferred.{AllBelow};
ghost use Rattle.tall_pass.specs.PassPlans.{is_below_at};
ghost use Rattle.tall_gather.specs.Candidates.{seen};

use crate::candidate::{Candidate, is_below};
use std::alloc::{AllocError, Global};
use tall_graph::{Graph, NodeId};
use tall_plan::Pass;

/// Whether a node is numbered below the candidate.
pub(crate) fn is_node_below(graph: &Graph, n: NodeId, candidate: Option<Candidate>) -> bool
    requires { n < length graph.now }
    ensures { result ≡ is_below_at graph.now (seen candidate) n }
{
    is_below(candidate, graph.number_of(n))
}

fn nodes_below(
    alloc: Global,
    graph: &Graph,
    nodes: &[NodeId],
    candidate: Option<Candidate>,
) -> Result<Vec<NodeId>, AllocError>
    requires { AllBelow (length graph.now) nodes.now }
    ensures { IfOk result (λ v. v.items ≡ filter (is_below_at graph.now (seen candidate)) nodes.now) }
{
    let mut kept = Vec::new(alloc);
    for n in nodes {
        if is_node_below(graph, *n, candidate) {
            kept.push(*n)?;
        }
    }
    Ok(kept)
}

/// The pass with only its nodes numbered below the candidate.
pub(crate) fn pass_below(
    alloc: Global,
    graph: &Graph,
    pass: &Pass,
    candidate: Option<Candidate>,
) -> Result<Pass, AllocError>
    requires work { AllBelow (length graph.now) pass.now.work.items }
    requires collect { AllBelow (length graph.now) pass.now.collect.items }
    ensures place { IfOk result (λ p. (p.store ≡ pass.now.store) × (p.level ≡ pass.now.level)) }
    ensures work { IfOk result (λ p. p.work.items ≡ filter (is_below_at graph.now (seen candidate)) pass.now.work.items) }
    ensures collect { IfOk result (λ p. p.collect.items ≡ filter (is_below_at graph.now (seen candidate)) pass.now.collect.items) }
{
    Ok(Pass {
        store: pass.store,
        level: pass.level,
        work: nodes_below(alloc, graph, pass.work.as_slice(), candidate)?,
        collect: nodes_below(alloc, graph, pass.collect.as_slice(), candidate)?,
    })
}
