//! What a pass comes to behind its last block.
ghost use Rattle.std.specs.Prelude.{◌≡◌, ◌<◌, ◌^◌, ℕ, [], ◌∷◌, IfErr, IfNone, IfOk, IfSome, List, length, option_map};
ghost use Rattle.std.specs.Vec.Iter.{into_iter_items};
ghost use Rattle.tall_semantics.specs.Faults.{fault_seen};
ghost use Rattle.tall_piece.specs.Joins.{AreWays};
ghost use Rattle.tall_piece.specs.Passes.{PassOver, outcomes};
ghost use Rattle.tall_piece.specs.Pieces.{AreSums, SumsFit};
ghost use Rattle.tall_plan.specs.declared.passes.Pass.{Pass};
ghost use Rattle.tall_pass.specs.Answered.{Adding, IsUnchanged};
ghost use Rattle.tall_pass.specs.Endings.{AreThereAtEnd, PutsAll, PutsBelow, PutsCells, PutsOne};
ghost use Rattle.tall_pass.specs.Finished.{Covers, IsFinished};

use crate::endings::{Ended, Ending, all_endings, is_below, least_fault};
use std::alloc::{AllocError, Global};
use std::vec::IntoIter;
use tall_column::Column;
use tall_fuse::Known;
use tall_graph::{Graph, NodeId};
use tall_piece::{Sums, Wanted, earlier};
use tall_value::Fault;

/// Puts the carries of a scan, block by block.
fn put_carries(known: &mut Known, node: NodeId, cells: &Column) -> Result<(), AllocError>
    ensures { IfOk result (λ _. PutsCells node (length cells.now.cells) cells.now known.old known.new) }
{
    for block in 0..cells.len() {
        known.put_carry(node, block as u64, &cells.get(block))?;
    }
    Ok(())
}

/// Puts what the sum of a node comes to.
fn put_one(known: &mut Known, ended: Ended) -> Result<(), AllocError>
    ensures { IfOk result (λ _. PutsOne ended known.old known.new) }
{
    let Ended { node, ending } = ended;
    match ending {
        Ending::Found(result) => known.put(node, result.column, result.rows),
        Ending::Carries(cells) => put_carries(known, node, &cells),
        Ending::Failed(_) => Ok(()),
        Ending::Nothing => Ok(()),
    }
}

/// The same, where the node is numbered below the bound.
fn put_below(
    graph: &Graph,
    bound: Option<Fault>,
    ended: Ended,
    known: &mut Known,
) -> Result<(), AllocError>
    requires { ended.node < length graph.now }
    ensures { IfOk result (λ _. PutsBelow graph.now (option_map fault_seen bound) ended known.old known.new) }
{
    if is_below(bound, graph.number_of(ended.node)) {
        put_one(known, ended)
    } else {
        Ok(())
    }
}

/// The next ending, where there is one.
fn next_ended(endings: &mut IntoIter<Ended>) -> Option<Ended>
    ensures some { IfSome result (λ e. into_iter_items endings.old ≡ e ∷ into_iter_items endings.new) }
    ensures none { IfNone result (into_iter_items endings.old ≡ []) }
{
    endings.next()
}

/// Puts what the sums come to, of all nodes that are numbered below the bound.
fn put_all(
    graph: &Graph,
    bound: Option<Fault>,
    endings: Vec<Ended>,
    known: &mut Known,
) -> Result<(), AllocError>
    requires { AreThereAtEnd (length graph.now) endings.items }
    ensures { IfOk result (λ _. PutsAll graph.now (option_map fault_seen bound) endings.items known.old known.new) }
{
    let mut endings = endings.into_iter();
    while let Some(ended) = next_ended(&mut endings) {
        put_below(graph, bound, ended, known)?;
    }
    Ok(())
}

/// What a pass comes to behind its last block: the least fault of its work, and of what is wanted and numbered below it the
/// results and the carries, which are added to what is known. Refused for want of memory alone, with what was known.
pub(crate) fn finished(
    alloc: Global,
    graph: &Graph,
    wanted: &[Wanted],
    sums: Sums,
    known: &mut Known,
) -> Result<Option<Fault>, AllocError>
    requires ways { AreWays graph.now wanted.now }
    requires fit { SumsFit graph.now sums.rows wanted.now sums.sums.items }
    requires few { sums.rows < 2 ^ 40 }
    ensures adds { (pass : Pass) → Covers graph.now pass wanted.now → IfOk result (λ q. Adding graph.now pass (option_map fault_seen q) known.old known.new) }
    ensures stays { IfErr result (λ _. IsUnchanged known.old known.new) }
    ensures told { (store : ℕ) (all : List ℕ) (p : PassOver graph.now store all wanted.now) → AreSums p (length (outcomes p)) sums.rows (option_map fault_seen sums.fault) sums.sums.items → IfOk result (λ q. IsFinished p (option_map fault_seen q) known.old known.new) }
{
    graph.keeps_its_rules();
    let bound = sums.fault;
    let endings = all_endings(alloc, graph, bound, wanted, sums.sums)?;
    let answer = earlier(bound, least_fault(endings.as_slice()));
    let mut found = Known::new(alloc);
    put_all(graph, answer, endings, &mut found)?;
    known.join(found)?;
    Ok(answer)
}
