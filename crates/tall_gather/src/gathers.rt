//! Gathers.
ghost use Rattle.std.specs.Prelude.{◌≡◌, ◌<◌, ◌≤◌, ℕ, IfErr, IfOk, List, Some, length, map};
ghost use Rattle.std.specs.Result.{result_map_both};
ghost use Rattle.tall_outside.specs.Shelf.{Files};
ghost use Rattle.tall_semantics.specs.Deferred.{AllBelow};
ghost use Rattle.tall_semantics.specs.ShapesInOrder.{shape_at};
ghost use Rattle.tall_semantics.specs.Talls.{Columns, Tall};
ghost use Rattle.tall_stored.specs.StoredColumns.{Store};
ghost use Rattle.tall_gather.specs.Gathered.{AreRootColumns, TellsGather, end_of, gather_openings, no_counts};
ghost use Rattle.tall_gather.specs.Going.{IsCaused, Went};
ghost use Rattle.tall_gather.specs.Progress.{FitStores};
ghost use Rattle.tall_gather.specs.Told.{IsTold};

use crate::candidate::Candidate;
use crate::faults::GatherFault;
use crate::levels::run_levels;
use crate::roots::root_columns;
use std::alloc::{AllocError, Global};
use std::thread::Threads;
use tall_column::Column;
use tall_fuse::Known;
use tall_graph::{Graph, NodeId};
use tall_outside::{Gate, Shelf};
use tall_pass::FileCounts;
use tall_plan::{greatest_level, needed_nodes, plan};
use tall_store::Datastore;

/// Counts for each datastore, of files that no pass has counted.
fn new_counts(alloc: Global, stores: &[Datastore]) -> Result<Vec<FileCounts>, AllocError>
    ensures { IfOk result (λ v. v.items ≡ map no_counts stores.now) }
{
    let mut counts = Vec::new(alloc);
    for store in stores {
        counts.push(FileCounts::new(alloc, store.file_count())?)?;
    }
    Ok(counts)
}

/// The fault that a gather ends with.
fn end_of(least: Candidate) -> GatherFault
    ensures { result ≡ end_of least }
{
    match least {
        Candidate::Data(fault) => GatherFault::Data(fault),
        Candidate::Reading(reading) => GatherFault::Reading {
            store: reading.store,
            fault: reading.fault,
        },
    }
}

/// The columns of some nodes of a graph over datastores, which stand in the order of their making. The passes over the
/// datastores go level by level, and within a level what stands in no pass comes after them; each gets only what is numbered
/// below the least fault of the lower ones.
///
/// A file may be opened as often as the sum of the shares of the datastores that list it. The columns of one space have one
/// height: what a changing file gives beyond the least of them is cut.
///
/// # Errors
/// - `Data` and `Reading` with the least fault of what the roots depend on.
/// - `Read` where the shelf failed, `TooLarge` where more than 2^50 bytes came of a file, `Changed` where two passes met two
///   numbers of records in a file: at once, whatever data faults were seen.
/// - `Memory` for want of memory.
pub fn gather<R: Threads + Sync, S: Shelf + Send, G: Gate + Sync>(
    rt: &R,
    alloc: Global,
    gate: &G,
    shelf: &mut S,
    stores: &[Datastore],
    graph: &Graph,
    roots: &[NodeId],
    workers: u32,
) -> Result<Vec<Column>, GatherFault>
    requires some { 0 < workers }
    requires few { workers ≤ 64 }
    requires roots { AllBelow (length graph.now) roots.now }
    requires stores { FitStores graph.now stores.now }
    ensures columns { IfOk result (λ v. AreRootColumns graph.now roots.now v.items) }
    ensures went { Went S.Shelf (gather_openings 0 stores.now (map (shape_at graph.now) roots.now)) shelf.old shelf.new }
    ensures caused { IfErr result (λ e. IsCaused S.Shelf stores.now e shelf.old shelf.new) }
    ensures told { (files : Files) → S.held shelf.old ≡ Some files → (list : List Store) (columns : Columns) (f : ℕ → Tall) → IsTold files list columns graph.now f stores.now → TellsGather list f roots.now (result_map_both (λ v. v.items) (λ e. e) result) }
{
    graph.keeps_its_rules();
    graph.numbers_tell_forms_and_spaces();
    let Ok(plan) = plan(alloc, graph, roots) else {
        return Err(GatherFault::Memory);
    };
    let Ok(needed) = needed_nodes(alloc, graph, roots) else {
        return Err(GatherFault::Memory);
    };
    let Ok(mut counts) = new_counts(alloc, stores) else {
        return Err(GatherFault::Memory);
    };
    let mut known = Known::new(alloc);
    let greatest = greatest_level(graph, roots);
    let found = match run_levels(
        rt,
        alloc,
        gate,
        shelf,
        stores,
        graph,
        roots,
        needed.as_slice(),
        plan.passes.as_slice(),
        greatest,
        &mut known,
        &mut counts,
        workers,
    ) {
        Ok(found) => found,
        Err(end) => return Err(end),
    };
    match found {
        Some(least) => Err(end_of(least)),
        None => match root_columns(alloc, graph, roots, &known) {
            Ok(columns) => Ok(columns),
            Err(_) => Err(GatherFault::Memory),
        },
    }
}
