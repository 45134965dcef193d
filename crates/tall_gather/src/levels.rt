//! The levels of a gather, one after the other.
ghost use Rattle.std.specs.Prelude.{◌≡◌, ◌<◌, ◌≤◌, ◌+◌, ◌*◌, ◌-◌, ℕ, IfOk, List, None, Option, Some, length};
ghost use Rattle.tall_outside.specs.Shelf.{Files};
ghost use Rattle.tall_semantics.specs.Deferred.{AreThere};
ghost use Rattle.tall_semantics.specs.Plans.{needed_of};
ghost use Rattle.tall_semantics.specs.Talls.{Columns, Tall};
ghost use Rattle.tall_stored.specs.StoredColumns.{Store};
ghost use Rattle.tall_gather.specs.Candidates.{seen};
ghost use Rattle.tall_gather.specs.Going.{IsAnsweredOr, Went, level_openings, levels_openings};
ghost use Rattle.tall_gather.specs.Progress.{AreAllPasses, FitStores, HaveCounts, IsAfter, IsUnknown};
ghost use Rattle.tall_gather.specs.Told.{AreCountedAll, Holds, IsTold, TellsLevel};

use crate::candidate::{Candidate, earlier};
use crate::faults::GatherFault;
use crate::passes::run_level;
use crate::rest::rest_level;
use std::alloc::Global;
use std::thread::Threads;
use tall_fuse::Known;
use tall_graph::{Graph, NodeId};
use tall_outside::{Gate, Shelf};
use tall_pass::FileCounts;
use tall_plan::Pass;
use tall_store::Datastore;

/// One level: its passes, each below the candidate of the lower levels, and then what of it stands in no pass, below the
/// candidate that these leave. The answer is the candidate behind it.
fn step_level<R: Threads + Sync, S: Shelf + Send, G: Gate + Sync>(
    rt: &R,
    alloc: Global,
    gate: &G,
    shelf: &mut S,
    stores: &[Datastore],
    graph: &Graph,
    roots: &[NodeId],
    needed: &[NodeId],
    passes: &[Pass],
    level: u64,
    candidate: Option<Candidate>,
    known: &mut Known,
    counts: &mut Vec<FileCounts>,
    workers: u32,
) -> Result<Option<Candidate>, GatherFault>
    requires some { 0 < workers }
    requires few { workers ≤ 64 }
    requires stores { FitStores graph.now stores.now }
    requires level { 0 < level }
    requires needed { needed.now ≡ needed_of graph.now roots.now }
    requires planned { AreAllPasses graph.now roots.now passes.now }
    requires files { HaveCounts counts.old.items stores.now }
    requires after { IsAfter graph.now roots.now (2 * level - 1) (seen candidate) known.old }
    ensures files { HaveCounts counts.new.items stores.now }
    ensures after { IfOk result (λ p. IsAfter graph.now roots.now (2 * level + 1) (seen p) known.new) }
    ensures went { Went S.Shelf (level_openings stores.now level passes.now) shelf.old shelf.new }
    ensures answered { IsAnsweredOr S.Shelf stores.now candidate result shelf.old shelf.new }
    ensures told { (files : Files) → S.held shelf.old ≡ Some files → (list : List Store) (columns : Columns) (f : ℕ → Tall) → IsTold files list columns graph.now f stores.now → Holds files list graph.now f roots.now stores.now (2 * level - 1) (seen candidate) known.old counts.old.items → TellsLevel files list graph.now f roots.now stores.now (2 * level + 1) known.new counts.new.items result }
{
    let found = match run_level(
        rt, alloc, gate, shelf, stores, graph, roots, passes, level, candidate, known, counts,
        workers,
    ) {
        Ok(found) => found,
        Err(end) => return Err(end),
    };
    let passed = earlier(found, candidate);
    match rest_level(alloc, graph, roots, needed, level, passed, known) {
        Ok(rest) => Ok(earlier(rest, passed)),
        Err(_) => Err(GatherFault::Memory),
    }
}

/// All levels up to the greatest. The answer is the least fault of what is needed for the roots.
pub(crate) fn run_levels<R: Threads + Sync, S: Shelf + Send, G: Gate + Sync>(
    rt: &R,
    alloc: Global,
    gate: &G,
    shelf: &mut S,
    stores: &[Datastore],
    graph: &Graph,
    roots: &[NodeId],
    needed: &[NodeId],
    passes: &[Pass],
    greatest: u64,
    known: &mut Known,
    counts: &mut Vec<FileCounts>,
    workers: u32,
) -> Result<Option<Candidate>, GatherFault>
    requires some { 0 < workers }
    requires few { workers ≤ 64 }
    requires stores { FitStores graph.now stores.now }
    requires needed { needed.now ≡ needed_of graph.now roots.now }
    requires planned { AreAllPasses graph.now roots.now passes.now }
    requires files { HaveCounts counts.old.items stores.now }
    requires unknown { IsUnknown known.old }
    ensures after { IfOk result (λ p. IsAfter graph.now roots.now (2 * greatest + 1) (seen p) known.new) }
    ensures went { Went S.Shelf (levels_openings stores.now greatest passes.now) shelf.old shelf.new }
    ensures answered { IsAnsweredOr S.Shelf stores.now None result shelf.old shelf.new }
    ensures told { (files : Files) → S.held shelf.old ≡ Some files → (list : List Store) (columns : Columns) (f : ℕ → Tall) → IsTold files list columns graph.now f stores.now → AreCountedAll files stores.now counts.old.items → TellsLevel files list graph.now f roots.now stores.now (2 * greatest + 1) known.new counts.new.items result }
{
    graph.keeps_its_rules();
    let Ok(mut candidate) = rest_level(alloc, graph, roots, needed, 0, None, known) else {
        return Err(GatherFault::Memory);
    };
    for below in 0..greatest {
        match step_level(
            rt,
            alloc,
            gate,
            shelf,
            stores,
            graph,
            roots,
            needed,
            passes,
            below + 1,
            candidate,
            known,
            counts,
            workers,
        ) {
            Ok(next) => candidate = next,
            Err(end) => return Err(end),
        }
    }
    Ok(candidate)
}
