//! The columns of the roots, from what is known.
ghost use Rattle.std.specs.Prelude.{◌≡◌, ◌<◌, ◌≤◌, ℕ, IfOk, List, Some, length, map, min};
ghost use Rattle.tall_semantics.specs.Deferred.{AllBelow, IsAmong};
ghost use Rattle.tall_semantics.specs.Forms.{space_number};
ghost use Rattle.tall_semantics.specs.ShapesInOrder.{shape_at};
ghost use Rattle.tall_graph.specs.Trees.{spaces_of};
ghost use Rattle.tall_fuse.specs.Results.{Found};
ghost use Rattle.tall_fuse.specs.Kept.{found};
ghost use Rattle.tall_gather.specs.Gathered.{AreRootColumns, HaveOneSpace, IsLeastHeight, IsRootColumn};
ghost use Rattle.tall_gather.specs.Progress.{IsKnown};
ghost use Rattle.tall_gather.specs.RootLists.{RootColumns};

use std::alloc::{AllocError, Global};
use tall_column::Column;
use tall_fuse::Known;
use tall_graph::{Graph, NodeId, Space};

/// The number of rows that are known of a node.
fn height(known: &Known, n: NodeId) -> usize
    requires { IsKnown known.now n }
    ensures { (r : Found) → found known.now n ≡ Some r → result ≡ length r.column.cells }
{
    match known.result(n) {
        Some(column) => column.len(),
        None => unreachable!(),
    }
}

/// The lesser of a height and that of a node, where the node has the space.
fn lesser_height(graph: &Graph, known: &Known, space: Space, n: NodeId, least: usize) -> usize
    requires there { n < length graph.now }
    requires known { IsKnown known.now n }
    ensures same { space_number (shape_at graph.now n).space (spaces_of graph.now) ≡ space → (r : Found) → found known.now n ≡ Some r → result ≡ min least (length r.column.cells) }
    ensures other { (space_number (shape_at graph.now n).space (spaces_of graph.now) ≡ space → ⊥) → result ≡ least }
{
    if graph.space_of(n) == space {
        least.min(height(known, n))
    } else {
        least
    }
}

/// The least height of the roots that have a root's space.
fn least_height(graph: &Graph, roots: &[NodeId], known: &Known, n: NodeId) -> usize
    requires roots { AllBelow (length graph.now) roots.now }
    requires root { IsAmong roots.now n }
    requires known { (i : ℕ) → IsAmong roots.now i → IsKnown known.now i }
    requires there { n < length graph.now }
    ensures { IsLeastHeight graph.now roots.now known.now n result }
{
    let space = graph.space_of(n);
    let mut least = height(known, n);
    for root in roots {
        least = lesser_height(graph, known, space, *root, least);
    }
    least
}

/// The column of a root, cut to the least height of its space: a file that changes may have given several.
fn root_column(
    graph: &Graph,
    roots: &[NodeId],
    known: &Known,
    n: NodeId,
) -> Result<Column, AllocError>
    requires roots { AllBelow (length graph.now) roots.now }
    requires root { IsAmong roots.now n }
    requires known { (i : ℕ) → IsAmong roots.now i → IsKnown known.now i }
    requires there { n < length graph.now }
    ensures { IfOk result (λ c. IsRootColumn graph.now roots.now known.now n c) }
{
    let least = least_height(graph, roots, known, n);
    match known.result(n) {
        Some(column) => column.slice(0, least),
        None => unreachable!(),
    }
}

/// One column for each root, in the order of the roots.
pub(crate) fn root_columns(
    alloc: Global,
    graph: &Graph,
    roots: &[NodeId],
    known: &Known,
) -> Result<Vec<Column>, AllocError>
    requires roots { AllBelow (length graph.now) roots.now }
    requires known { (i : ℕ) → IsAmong roots.now i → IsKnown known.now i }
    ensures { IfOk result (λ v. RootColumns graph.now roots.now known.now (length roots.now) v.items) }
{
    let mut columns = Vec::new(alloc);
    for n in roots {
        columns.push(root_column(graph, roots, known, *n)?)?;
    }
    Ok(columns)
}
