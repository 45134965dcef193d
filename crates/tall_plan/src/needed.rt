//! Which nodes are needed.
ghost use Rattle.std.specs.Prelude.{◌≡◌, ◌<◌, ◌||◌, IfOk, ℕ, length};
ghost use Rattle.tall_semantics.specs.Deferred.{AllBelow};
ghost use Rattle.tall_semantics.specs.Plans.{is_among, needed_of};
ghost use Rattle.tall_plan.specs.Marks.{AreMarked, mark_at};

use std::alloc::{AllocError, Global};
use tall_graph::{Graph, NodeId};

fn mark(marks: &mut Vec<bool>, places: &[NodeId])
    requires { AllBelow (length marks.old.items) places.now }
    ensures length { length marks.new.items ≡ length marks.old.items }
    ensures marks { (i : ℕ) → i < length marks.old.items → mark_at marks.new.items i ≡ (mark_at marks.old.items i || is_among i places.now) }
{
    for n in places {
        let place = n.place();
        marks[place] = true;
    }
}

/// A mark for each node of the graph: whether it is among these.
pub(crate) fn marked(
    alloc: Global,
    graph: &Graph,
    places: &[NodeId],
) -> Result<Vec<bool>, AllocError>
    requires { AllBelow (length graph.now) places.now }
    ensures length { IfOk result (λ m. length m.items ≡ length graph.now) }
    ensures marks { IfOk result (λ m. AreMarked m.items (length graph.now) places.now) }
{
    let mut marks = Vec::from_elem(alloc, false, graph.len())?;
    mark(&mut marks, places);
    Ok(marks)
}

/// The nodes that the roots depend on, the roots too, by ascending places.
pub(crate) fn needed(
    alloc: Global,
    graph: &Graph,
    roots: &[NodeId],
) -> Result<Vec<NodeId>, AllocError>
    requires { AllBelow (length graph.now) roots.now }
    ensures { IfOk result (λ n. n.items ≡ needed_of graph.now roots.now) }
{
    let mut marks = marked(alloc, graph, roots)?;
    let mut found = Vec::new(alloc);
    graph.keeps_its_rules();
    let mut left = graph.len();
    while left > 0 {
        left -= 1;
        if marks[left] {
            let node = graph.node_at(left);
            mark(&mut marks, graph.args_of(node));
            found.push(node)?;
        }
    }
    found.reverse();
    Ok(found)
}
