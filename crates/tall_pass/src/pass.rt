//! A pass over the files of a datastore.
ghost use Rattle.std.specs.Prelude.{◌≡◌, ◌<◌, ◌≤◌, ℕ, IfErr, IfOk, List, Option, Some, length, option_map};
ghost use Rattle.tall_outside.specs.Shelf.{Files};
ghost use Rattle.tall_outside.specs.ShelfCounts.{IsLater, shelf_counts};
ghost use Rattle.tall_semantics.specs.Faults.{fault_seen};
ghost use Rattle.tall_semantics.specs.Faults as semantics;
ghost use Rattle.tall_semantics.specs.Talls.{Columns, Tall};
ghost use Rattle.tall_stored.specs.StoredColumns.{Store};
ghost use Rattle.tall_pass.specs.Answered.{Adding, IsChange, IsExplained, IsLonger, IsPlaced, IsUnchanged, OpensFiles};
ghost use Rattle.tall_pass.specs.Counts.{AllCounted, AreCounted, KeepsCounts};
ghost use Rattle.tall_pass.specs.Fitting.{AreFit, CanRun};
ghost use Rattle.tall_pass.specs.PassPlans.{FitsStore};
ghost use Rattle.tall_pass.specs.Told.{IsGiven, Tells};

use crate::counts::FileCounts;
use crate::faults::PassFault;
use crate::finish::finished;
use crate::walking::{Walked, walk_pass};
use crate::work::pass_work;
use std::alloc::Global;
use std::thread::Threads;
use tall_fuse::Known;
use tall_graph::Graph;
use tall_outside::{Gate, Shelf};
use tall_plan::Pass;
use tall_store::Datastore;
use tall_value::Fault;

/// Goes once over the files of a datastore for a pass of a plan, or for what of it is numbered below a fault, and opens each
/// file at most once.
///
/// It adds to what is known: of the work without the datastore's rows its results, with the numbers of their rows; the
/// columns of the roots that the pass keeps; and the carries of scans whose chain is the pass's level, by blocks. At None it
/// adds all of them. At a fault, which is the least of the pass's work, it adds those of the work numbered below it. `counts`
/// has then the number of records of each file, and no number in it ever changes.
///
/// # Errors
/// What is known is as before.
/// - `Reading` with the datastore's first reading fault.
/// - `Changed` where a file hasn't as many records as `counts` says, which never comes where the shelf tells its files.
/// - `Read` where the shelf failed, `TooLarge` where more than 2^50 bytes came, `Memory` for want of memory.
pub fn run_pass<R: Threads + Sync, S: Shelf + Send, G: Gate + Sync>(
    rt: &R,
    alloc: Global,
    gate: &G,
    shelf: &mut S,
    store: &Datastore,
    graph: &Graph,
    pass: &Pass,
    known: &mut Known,
    counts: &mut FileCounts,
    workers: u32,
) -> Result<Option<Fault>, PassFault>
    requires some { 0 < workers }
    requires few { workers ≤ 64 }
    requires ready { CanRun graph.now pass.now known.old }
    requires fit { AreFit graph.now known.old }
    requires store { FitsStore graph.now pass.now.store store.now }
    requires counts { length counts.old ≡ length store.now.files }
    ensures adds { IfOk result (λ p. Adding graph.now pass.now (option_map fault_seen p) known.old known.new) }
    ensures stays { IfErr result (λ _. IsUnchanged known.old known.new) }
    ensures counts { KeepsCounts counts.old counts.new }
    ensures counted { IfOk result (λ _. AllCounted counts.new) }
    ensures changed { IsChange counts.old result }
    ensures held { S.held shelf.new ≡ S.held shelf.old }
    ensures later { IsLater (shelf_counts S.Shelf shelf.old) (shelf_counts S.Shelf shelf.new) }
    ensures opens { OpensFiles store.now.files result (S.opened shelf.old) (S.opened shelf.new) }
    ensures explained { IsExplained result (shelf_counts S.Shelf shelf.old) (shelf_counts S.Shelf shelf.new) }
    ensures longer { (files : Files) → S.held shelf.old ≡ Some files → IsLonger store.now files result }
    ensures placed { IsPlaced store.now result }
    ensures told { (files : Files) → S.held shelf.old ≡ Some files → (stores : List Store) (d : Store) (columns : Columns) (f : ℕ → Tall) (roots : List ℕ) (c : Option semantics.Fault) → IsGiven files stores d columns graph.now f roots c pass.now store.now known.old counts.old → Tells files stores graph.now f roots c pass.now store.now result known.new }
    ensures right { (files : Files) → S.held shelf.old ≡ Some files → AreCounted files store.now counts.old → AreCounted files store.now counts.new }
{
    graph.keeps_its_rules();
    let _files = store.file_count();
    let Ok(work) = pass_work(alloc, graph, pass) else {
        return Err(PassFault::Memory);
    };
    let all = work.all.as_slice();
    let wanted = work.wanted.as_slice();
    match walk_pass(
        rt, alloc, gate, shelf, store, graph, known, all, wanted, counts, workers,
    ) {
        Ok(walked) => {
            let Walked { sums, counts: now } = walked;
            *counts = now;
            match finished(alloc, graph, wanted, sums, known) {
                Ok(fault) => Ok(fault),
                Err(_) => Err(PassFault::Memory),
            }
        }
        Err(fault) => Err(fault),
    }
}
