//! The passes of one level.
ghost use Rattle.std.specs.Prelude.{◌≡◌, ◌<◌, ◌≤◌, ◌*◌, ◌-◌, ℕ, IfErr, IfOk, List, Option, Some, length};
ghost use Rattle.tall_outside.specs.Shelf.{Files};
ghost use Rattle.tall_outside.specs.ShelfCounts.{shelf_counts};
ghost use Rattle.tall_semantics.specs.Faults.{earlier};
ghost use Rattle.tall_semantics.specs.Talls.{Columns, Tall};
ghost use Rattle.tall_stored.specs.StoredColumns.{Store};
ghost use Rattle.tall_pass.specs.Fitting.{AreFit};
ghost use Rattle.tall_gather.specs.Candidates.{HasVariable, seen};
ghost use Rattle.tall_gather.specs.Going.{IsAnswered, Went, level_openings, pass_openings};
ghost use Rattle.tall_gather.specs.Progress.{AreAllPasses, AreKnown, FitStores, HaveCounts, IsAfter, IsPassed, IsPlannedPass};
ghost use Rattle.tall_gather.specs.Becoming.{Becomes};
ghost use Rattle.tall_gather.specs.Told.{Holds, IsTold, TellsPass, TellsRank};

use crate::below::pass_below;
use crate::calls::reading_of;
use crate::candidate::{Candidate, earlier};
use crate::faults::GatherFault;
use std::alloc::Global;
use std::thread::Threads;
use tall_fuse::Known;
use tall_graph::{Graph, NodeId};
use tall_outside::{Gate, Shelf};
use tall_pass::{FileCounts, PassFault, run_pass};
use tall_plan::Pass;
use tall_store::Datastore;
use tall_value::Fault;

/// The answer of a pass over a datastore as a candidate, or the end of the gather.
fn answer_of(
    graph: &Graph,
    store: u32,
    answer: Result<Option<Fault>, PassFault>,
) -> Result<Option<Candidate>, GatherFault>
    requires { HasVariable graph.now store }
    ensures { Becomes graph.now store answer result }
{
    match answer {
        Ok(None) => Ok(None),
        Ok(Some(fault)) => Ok(Some(Candidate::Data(fault))),
        Err(PassFault::Reading(fault)) => {
            let reading = reading_of(graph, store, fault);
            Ok(Some(Candidate::Reading(reading)))
        }
        Err(PassFault::Read { file }) => Err(GatherFault::Read { store, file }),
        Err(PassFault::TooLarge { file }) => Err(GatherFault::TooLarge { store, file }),
        Err(PassFault::Changed { file, first, now }) => Err(GatherFault::Changed {
            store,
            file,
            first,
            now,
        }),
        Err(PassFault::Memory) => Err(GatherFault::Memory),
    }
}

/// A pass of the plan, with what of it is numbered below the candidate of the lower ranks. The answer is the least fault of
/// that work.
pub(crate) fn run_one<R: Threads + Sync, S: Shelf + Send, G: Gate + Sync>(
    rt: &R,
    alloc: Global,
    gate: &G,
    shelf: &mut S,
    stores: &[Datastore],
    graph: &Graph,
    roots: &[NodeId],
    pass: &Pass,
    candidate: Option<Candidate>,
    known: &mut Known,
    counts: &mut Vec<FileCounts>,
    workers: u32,
) -> Result<Option<Candidate>, GatherFault>
    requires some { 0 < workers }
    requires few { workers ≤ 64 }
    requires stores { FitStores graph.now stores.now }
    requires planned { IsPlannedPass graph.now roots.now pass.now }
    requires files { HaveCounts counts.old.items stores.now }
    requires fit { AreFit graph.now known.old }
    requires known { AreKnown graph.now roots.now (2 * pass.now.level - 1) (seen candidate) known.old }
    ensures files { HaveCounts counts.new.items stores.now }
    ensures passed { IfOk result (λ p. IsPassed graph.now roots.now pass.now (seen candidate) (seen p) known.old known.new) }
    ensures went { Went S.Shelf (pass_openings stores.now pass.now.store) shelf.old shelf.new }
    ensures answered { IsAnswered S.Shelf stores.now result shelf.old shelf.new }
    ensures told { (files : Files) → S.held shelf.old ≡ Some files → (list : List Store) (columns : Columns) (f : ℕ → Tall) → IsTold files list columns graph.now f stores.now → Holds files list graph.now f roots.now stores.now (2 * pass.now.level - 1) (seen candidate) known.old counts.old.items → TellsPass files list graph.now f roots.now stores.now pass.now (seen candidate) known.old known.new counts.new.items result }
{
    graph.keeps_its_rules();
    let Ok(part) = pass_below(alloc, graph, pass, candidate) else {
        return Err(GatherFault::Memory);
    };
    if part.work.is_empty() {
        return Ok(None);
    }
    let store = pass.store;
    let place = store as usize;
    let answer = run_pass(
        rt,
        alloc,
        gate,
        shelf,
        &stores[place],
        graph,
        &part,
        known,
        &mut counts[place],
        workers,
    );
    answer_of(graph, store, answer)
}

/// The passes of one level, each with what of it is numbered below the candidate of the lower ranks: a fault of one pass takes
/// no work from another. The answer is the least fault of them.
pub(crate) fn run_level<R: Threads + Sync, S: Shelf + Send, G: Gate + Sync>(
    rt: &R,
    alloc: Global,
    gate: &G,
    shelf: &mut S,
    stores: &[Datastore],
    graph: &Graph,
    roots: &[NodeId],
    passes: &[Pass],
    level: u64,
    candidate: Option<Candidate>,
    known: &mut Known,
    counts: &mut Vec<FileCounts>,
    workers: u32,
) -> Result<Option<Candidate>, GatherFault>
    requires some { 0 < workers }
    requires few { workers ≤ 64 }
    requires stores { FitStores graph.now stores.now }
    requires level { 0 < level }
    requires planned { AreAllPasses graph.now roots.now passes.now }
    requires files { HaveCounts counts.old.items stores.now }
    requires after { IsAfter graph.now roots.now (2 * level - 1) (seen candidate) known.old }
    ensures files { HaveCounts counts.new.items stores.now }
    ensures after { IfOk result (λ p. IsAfter graph.now roots.now (2 * level) (earlier (seen p) (seen candidate)) known.new) }
    ensures went { Went S.Shelf (level_openings stores.now level passes.now) shelf.old shelf.new }
    ensures answered { IsAnswered S.Shelf stores.now result shelf.old shelf.new }
    ensures told { (files : Files) → S.held shelf.old ≡ Some files → (list : List Store) (columns : Columns) (f : ℕ → Tall) → IsTold files list columns graph.now f stores.now → Holds files list graph.now f roots.now stores.now (2 * level - 1) (seen candidate) known.old counts.old.items → TellsRank files list graph.now f roots.now stores.now (2 * level) (seen candidate) known.new counts.new.items result }
{
    let mut found: Option<Candidate> = None;
    graph.keeps_its_rules();
    for pass in passes {
        if pass.level == level {
            match run_one(
                rt, alloc, gate, shelf, stores, graph, roots, pass, candidate, known, counts,
                workers,
            ) {
                Ok(fault) => found = earlier(found, fault),
                Err(end) => return Err(end),
            }
        }
    }
    Ok(found)
}
