//! What stands in no pass: values without a datastore's rows over such values, which are computed from what is known.
ghost use Rattle.std.specs.Prelude.{◌≡◌, ◌<◌, ◌+◌, ◌*◌, ◌&&◌, ℕ, IfOk, List, None, Option, Some, length, option_map, slice_get};
ghost use Rattle.tall_outside.specs.Shelf.{Files};
ghost use Rattle.tall_semantics.specs.Deferred.{AllBelow, AreThere};
ghost use Rattle.tall_semantics.specs.Faults.{earlier, fault_seen};
ghost use Rattle.tall_semantics.specs.Plans.{needed_of};
ghost use Rattle.tall_semantics.specs.Talls.{Columns, Tall};
ghost use Rattle.tall_stored.specs.StoredColumns.{Store};
ghost use Rattle.tall_store.specs.Stores.{SeenStore};
ghost use Rattle.tall_blocks.specs.LevelWork.{is_rest};
ghost use Rattle.tall_pass.specs.Fitting.{AreFit};
ghost use Rattle.tall_pass.specs.PassPlans.{is_below_at};
ghost use Rattle.tall_gather.specs.Candidates.{IsOfData, seen};
ghost use Rattle.tall_gather.specs.Progress.{IsAfter};
ghost use Rattle.tall_gather.specs.Rests.{AreShown, IsComputed, IsPut, IsRestAt, StepsRest, TellsPut};
ghost use Rattle.tall_gather.specs.Told.{Holds, IsTold};

use crate::below::is_node_below;
use crate::candidate::{Candidate, earlier};
use crate::small::{Small, small_value};
use std::alloc::{AllocError, Global};
use tall_fuse::Known;
use tall_graph::{Graph, NodeId};
use tall_value::Fault;

/// Whether a node stands in no pass, and is of the level.
fn is_rest(graph: &Graph, n: NodeId, level: u64) -> bool
    requires { n < length graph.now }
    ensures { result ≡ is_rest graph.now level n }
{
    match graph.store_of(n) {
        None => graph.level_of(n) == level,
        Some(_) => false,
    }
}

/// Computes a node's value from what is known, and adds it; or its fault. Where an operand isn't known, there is neither.
fn put_small(
    alloc: Global,
    graph: &Graph,
    n: NodeId,
    known: &mut Known,
) -> Result<Option<Fault>, AllocError>
    requires there { IsRestAt graph.now n }
    requires fit { AreFit graph.now known.old }
    ensures put { IfOk result (λ x. IsPut graph.now n x known.old known.new) }
    ensures told { (columns : Columns) (f : ℕ → Tall) → IsComputed columns graph.now f → AreShown f known.old → IfOk result (λ x. TellsPut graph.now f n x known.new) }
{
    match small_value(alloc, graph, known, n) {
        Small::Made(value) => {
            known.put(n, value.column, value.rows)?;
            Ok(None)
        }
        Small::Failed(fault) => Ok(Some(fault)),
        Small::Unknown => Ok(None),
        Small::Memory => Err(AllocError),
    }
}

/// Computes a node's value where it stands in no pass, is of the level and numbered below the candidate.
fn rest_step(
    alloc: Global,
    graph: &Graph,
    n: NodeId,
    level: u64,
    candidate: Option<Candidate>,
    known: &mut Known,
) -> Result<Option<Fault>, AllocError>
    requires there { n < length graph.now }
    requires fit { AreFit graph.now known.old }
    ensures step { IfOk result (λ x. StepsRest graph.now level (seen candidate) n x known.old known.new) }
    ensures told { (columns : Columns) (f : ℕ → Tall) → IsComputed columns graph.now f → AreShown f known.old → IfOk result (λ x. TellsPut graph.now f n x known.new) }
{
    if is_rest(graph, n, level) && is_node_below(graph, n, candidate) {
        return put_small(alloc, graph, n, known);
    }
    Ok(None)
}

/// A fault of an operation, if there is one.
fn of_data(fault: Option<Fault>) -> Option<Candidate>
    ensures seen { seen result ≡ option_map fault_seen fault }
    ensures of_data { IsOfData result }
{
    match fault {
        None => None,
        Some(fault) => Some(Candidate::Data(fault)),
    }
}

/// The values of a level that stand in no pass and are numbered below the candidate. The answer is the least fault of them.
pub(crate) fn rest_level(
    alloc: Global,
    graph: &Graph,
    roots: &[NodeId],
    needed: &[NodeId],
    level: u64,
    candidate: Option<Candidate>,
    known: &mut Known,
) -> Result<Option<Candidate>, AllocError>
    requires there { AreThere graph.now roots.now }
    requires needed { needed.now ≡ needed_of graph.now roots.now }
    requires after { IsAfter graph.now roots.now (2 * level) (seen candidate) known.old }
    ensures after { IfOk result (λ p. IsAfter graph.now roots.now (2 * level + 1) (earlier (seen p) (seen candidate)) known.new) }
    ensures of_data { IfOk result IsOfData }
    ensures told { (files : Files) (stores : List SeenStore) (counts : List (List (Option ℕ))) (list : List Store) (columns : Columns) (f : ℕ → Tall) → IsTold files list columns graph.now f stores → Holds files list graph.now f roots.now stores (2 * level) (seen candidate) known.old counts → IfOk result (λ p. Holds files list graph.now f roots.now stores (2 * level + 1) (earlier (seen p) (seen candidate)) known.new counts) }
{
    graph.keeps_its_rules();
    let mut found: Option<Candidate> = None;
    for n in needed {
        let fault = rest_step(alloc, graph, *n, level, candidate, known)?;
        found = earlier(found, of_data(fault));
    }
    Ok(found)
}
