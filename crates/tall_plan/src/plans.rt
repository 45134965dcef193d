//! The plan of a gather.
ghost use Rattle.std.specs.Prelude.{◌≡◌, ◌<◌, ◌≤◌, ◌++◌, ℕ, IfOk, List, OnOk, length, map};
ghost use Rattle.tall_semantics.specs.Deferred.{AllBelow};
ghost use Rattle.tall_semantics.specs.Openings.{share};
ghost use Rattle.tall_semantics.specs.Passes.{of_store, passes_at};
ghost use Rattle.tall_semantics.specs.Plans.{needed_of, plan_of, stores_in, work_of};
ghost use Rattle.tall_semantics.specs.Shapes.{greatest_level};
ghost use Rattle.tall_semantics.specs.ShapesInOrder.{shape_at};
ghost use Rattle.tall_plan.specs.Marks.{AreMarked};
ghost use Rattle.tall_plan.specs.Seen.{AreCollected, passes_seen};

use crate::needed::{marked, needed};
use crate::passes::{Pass, Plan, next_store, pass_over};
use std::alloc::{AllocError, Global};
use tall_graph::{Graph, NodeId};

/// The greatest level of the roots, 0 for none.
pub fn greatest_level(graph: &Graph, roots: &[NodeId]) -> u64
    requires { AllBelow (length graph.now) roots.now }
    ensures { result ≡ greatest_level (map (shape_at graph.now) roots.now) }
{
    let mut greatest = 0;
    for n in roots {
        greatest = graph.level_of(*n).max(greatest);
    }
    greatest
}

/// The nodes that the roots depend on, the roots too, by ascending places.
pub fn needed_nodes(
    alloc: Global,
    graph: &Graph,
    roots: &[NodeId],
) -> Result<Vec<NodeId>, AllocError>
    requires { AllBelow (length graph.now) roots.now }
    ensures { IfOk result (λ n. n.items ≡ needed_of graph.now roots.now) }
{
    needed(alloc, graph, roots)
}

/// The passes of one level.
fn add_level(
    alloc: Global,
    graph: &Graph,
    roots: &[NodeId],
    is_root: &Vec<bool>,
    needed: &[NodeId],
    level: u64,
    passes: &mut Vec<Pass>,
) -> Result<(), AllocError>
    requires roots { AllBelow (length graph.now) roots.now }
    requires below { AllBelow (length graph.now) needed.now }
    requires needed { needed.now ≡ needed_of graph.now roots.now }
    requires length { length is_root.now.items ≡ length graph.now }
    requires marks { AreMarked is_root.now.items (length graph.now) roots.now }
    requires collected { AreCollected graph.now roots.now passes.old.items }
    ensures passes { OnOk result (passes_seen passes.new.items ≡ passes_seen passes.old.items ++ passes_at (work_of graph.now needed.now) level (stores_in graph.now)) }
    ensures collected { OnOk result (AreCollected graph.now roots.now passes.new.items) }
{
    graph.keeps_its_rules();
    let mut from = 0;
    while let Some(store) = next_store(graph, needed, level, from) {
        passes.push(pass_over(alloc, graph, roots, is_root, needed, store, level)?)?;
        from = store as u64 + 1;
    }
    Ok(())
}

/// The passes that compute what the roots depend on. Each needed node with a datastore's rows, or with an operand that has
/// them, is work of the pass of its level over the datastore; a scan is also work of the pass of its chain. A pass keeps the
/// columns of the roots with its datastore's rows at its level. Over a datastore there are at most as many passes as the
/// greatest level of the roots, and none where no root reads it.
pub fn plan(alloc: Global, graph: &Graph, roots: &[NodeId]) -> Result<Plan, AllocError>
    requires { AllBelow (length graph.now) roots.now }
    ensures passes { IfOk result (λ p. passes_seen p.passes.items ≡ plan_of graph.now roots.now) }
    ensures collected { IfOk result (λ p. AreCollected graph.now roots.now p.passes.items) }
    ensures bound { IfOk result (λ p. (store : ℕ) → of_store store (passes_seen p.passes.items) ≤ share store (map (shape_at graph.now) roots.now)) }
{
    graph.keeps_its_rules();
    let is_root = marked(alloc, graph, roots)?;
    let needed = needed(alloc, graph, roots)?;
    let levels = greatest_level(graph, roots);
    let mut passes = Vec::new(alloc);
    for level in 0..levels {
        add_level(
            alloc,
            graph,
            roots,
            &is_root,
            needed.as_slice(),
            level + 1,
            &mut passes,
        )?;
    }
    Ok(Plan { passes })
}
