//! The walk of a pass over the files of its datastore.
ghost use Rattle.std.specs.Prelude.{◌≡◌, ◌<◌, ◌≤◌, ◌^◌, ℕ, IfOk, List, Result, Some, Vec, length, map};
ghost use Rattle.std.specs.Borrow.{Bor};
ghost use Rattle.std.specs.Thread.{IsSync};
ghost use Rattle.tall_outside.specs.Shelf.{Files};
ghost use Rattle.tall_outside.specs.ShelfCounts.{IsLater, shelf_counts};
ghost use Rattle.tall_semantics.specs.Deferred.{IsAmong};
ghost use Rattle.tall_store.specs.Stores.{IsStore};
ghost use Rattle.tall_piece.specs.Joins.{AreWays};
ghost use Rattle.tall_walk.specs.Events.{block_of};
ghost use Rattle.tall_pass.specs.Answered.{IsChange, IsExplained, IsLonger, IsPlaced, OpensFiles};
ghost use Rattle.tall_pass.specs.Counts.{AllCounted, KeepsCounts};
ghost use Rattle.tall_pass.specs.Taken.{ArePieces, AreWaiting, Inputs, inputs};
ghost use Rattle.tall_pass.specs.Takers.{Takes, shared_inputs};
ghost use Rattle.tall_pass.specs.Walking.{AreNone, AreSome, EndsWalk, NeedsTaken, WalkTells, answer_of};

use crate::counts::FileCounts;
use crate::faults::PassFault;
use crate::given::{PassGiven, Shared};
use crate::joining::Joined;
use crate::taker::Taker;
use crate::window::pieces;
use std::alloc::{AllocError, Global};
use std::marker::{Brand, PhantomData};
use std::thread::Threads;
use tall_fuse::Known;
use tall_graph::{Graph, NodeId};
use tall_outside::{Gate, Shelf};
use tall_piece::{Piece, Sums, Wanted};
use tall_store::{Datastore, FileBlock};
use tall_walk::{WalkEnd, walk_files};

/// How many blocks wait for each worker before their pieces are made.
const BLOCKS_OF_A_WORKER: usize = 2;

/// What a walk over all files comes to.
#[derive(Drop)]
pub(crate) struct Walked {
    /// The sums of all blocks.
    pub(crate) sums: Sums,
    /// The number of records of each file.
    pub(crate) counts: FileCounts,
}

/// Behind the walk: the blocks that still wait are worked off, and a fault of these comes before that of a file.
fn end_walk<'a, C: Fn(&[FileBlock], u64) -> Result<Vec<Piece>, AllocError>, K: PassGiven>(
    taker: Taker<'a, C, K>,
    end: WalkEnd<PassFault>,
) -> Result<Walked, PassFault>
    requires { NeedsTaken (Takes C.pre C.post K.PassGiven taker) end }
    ensures { (w : Inputs) → K.inputs ≡ Some w → EndsWalk (Takes C.pre C.post K.PassGiven taker.entry) w K.counts end result }
{
    let mut taker = taker;
    match end {
        WalkEnd::Whole => match taker.work_off() {
            Ok(_) => {
                let Taker { joined, counts, .. } = taker;
                let Joined { sums, .. } = joined;
                Ok(Walked { sums, counts })
            }
            Err(fault) => Err(fault),
        },
        WalkEnd::Reading(fault) => match taker.work_off() {
            Ok(_) => Err(PassFault::Reading(fault)),
            Err(earlier) => Err(earlier),
        },
        WalkEnd::Stopped(fault) => Err(fault),
        WalkEnd::Read { file } => Err(PassFault::Read { file }),
        WalkEnd::TooLarge { file } => Err(PassFault::TooLarge { file }),
        WalkEnd::Memory => Err(PassFault::Memory),
    }
}

/// The walk, with all that it is given by name.
fn walk_given<S: Shelf, C: Fn(&[FileBlock], u64) -> Result<Vec<Piece>, AllocError>, K: PassGiven>(
    alloc: Global,
    shelf: &mut S,
    shared: &Shared<'_>,
    call: &C,
    given: PhantomData<K>,
    sums: Sums,
    counts: FileCounts,
    workers: u32,
) -> Result<Walked, PassFault>
    requires some { 0 < workers }
    requires few { workers ≤ 64 }
    requires asks { (blocks : Bor (List FileBlock)) (first : ℕ) → AreWaiting (length shared.now.store.now.files) blocks.now → first < 2 ^ 40 → C.pre call.now blocks first }
    requires gives { (blocks : Bor (List FileBlock)) (first : ℕ) (r : Result (Vec Piece Global) AllocError) → AreWaiting (length shared.now.store.now.files) blocks.now → first < 2 ^ 40 → C.post call.now blocks first r → IfOk r (λ v. ArePieces (shared_inputs shared.now) first (map block_of blocks.now) v.items) }
    requires given { K.inputs ≡ Some (shared_inputs shared.now) }
    requires known { K.counts ≡ counts }
    requires store { IsStore shared.now.store.now }
    requires files { length counts ≡ length shared.now.store.now.files }
    requires places { (i : ℕ) → IsAmong shared.now.all.now i → i < length shared.now.graph.now }
    requires ways { AreWays shared.now.graph.now shared.now.wanted.now }
    requires none { AreNone (shared_inputs shared.now) sums }
    ensures ok { IfOk result (λ w. AreSome (shared_inputs shared.now) w.sums) }
    ensures kept { IfOk result (λ w. KeepsCounts counts w.counts × AllCounted w.counts) }
    ensures changed { IsChange counts (answer_of result) }
    ensures held { S.held shelf.new ≡ S.held shelf.old }
    ensures later { IsLater (shelf_counts S.Shelf shelf.old) (shelf_counts S.Shelf shelf.new) }
    ensures opens { OpensFiles shared.now.store.now.files (answer_of result) (S.opened shelf.old) (S.opened shelf.new) }
    ensures explained { IsExplained (answer_of result) (shelf_counts S.Shelf shelf.old) (shelf_counts S.Shelf shelf.new) }
    ensures longer { (files : Files) → S.held shelf.old ≡ Some files → IsLonger shared.now.store.now files (answer_of result) }
    ensures placed { IsPlaced shared.now.store.now (answer_of result) }
    ensures told { (files : Files) → S.held shelf.old ≡ Some files → WalkTells (shared_inputs shared.now) files counts result }
{
    let mut taker = Taker {
        alloc,
        call,
        shared: *shared,
        most: BLOCKS_OF_A_WORKER * workers as usize,
        joined: Joined { sums, blocks: 0 },
        window: Vec::new(alloc),
        spare: Vec::new(alloc),
        counts,
        given,
    };
    let end = walk_files(shelf, shared.store, &mut taker);
    end_walk(taker, end)
}

/// Walks over all files of a datastore for a pass, opens each file at most once, and joins the pieces of all blocks.
///
/// # Errors
/// As those of a pass.
pub(crate) fn walk_pass<'a, R: Threads + Sync, S: Shelf, G: Gate + Sync>(
    rt: &R,
    alloc: Global,
    gate: &G,
    shelf: &mut S,
    store: &'a Datastore,
    graph: &'a Graph,
    known: &'a Known,
    all: &'a [NodeId],
    wanted: &'a [Wanted],
    counts: &FileCounts,
    workers: u32,
) -> Result<Walked, PassFault>
    requires some { 0 < workers }
    requires few { workers ≤ 64 }
    requires store { IsStore store.now }
    requires files { length counts.now ≡ length store.now.files }
    requires places { (i : ℕ) → IsAmong all.now i → i < length graph.now }
    requires ways { AreWays graph.now wanted.now }
    ensures ok { IfOk result (λ w. AreSome (inputs store.now graph.now known.now all.now wanted.now) w.sums) }
    ensures kept { IfOk result (λ w. KeepsCounts counts.now w.counts × AllCounted w.counts) }
    ensures changed { IsChange counts.now (answer_of result) }
    ensures held { S.held shelf.new ≡ S.held shelf.old }
    ensures later { IsLater (shelf_counts S.Shelf shelf.old) (shelf_counts S.Shelf shelf.new) }
    ensures opens { OpensFiles store.now.files (answer_of result) (S.opened shelf.old) (S.opened shelf.new) }
    ensures explained { IsExplained (answer_of result) (shelf_counts S.Shelf shelf.old) (shelf_counts S.Shelf shelf.new) }
    ensures longer { (files : Files) → S.held shelf.old ≡ Some files → IsLonger store.now files (answer_of result) }
    ensures placed { IsPlaced store.now (answer_of result) }
    ensures told { (files : Files) → S.held shelf.old ≡ Some files → WalkTells (inputs store.now graph.now known.now all.now wanted.now) files counts.now result }
{
    let Ok(sums) = Sums::new(alloc, graph, wanted) else {
        return Err(PassFault::Memory);
    };
    let Ok(first) = counts.copy() else {
        return Err(PassFault::Memory);
    };
    let shared = Shared {
        store,
        graph,
        known,
        all,
        wanted,
    };
    walk_given(
        alloc,
        shelf,
        &shared,
        &|blocks: &[FileBlock], first: u64| -> Result<Vec<Piece>, AllocError>
            requires threads { IsSync R.row × IsSync G.row }
            requires some { 0 < workers }
            requires places { (i : ℕ) → IsAmong shared.all.now i → i < length shared.graph.now }
            requires ways { AreWays shared.graph.now shared.wanted.now }
            requires waits { AreWaiting (length shared.store.now.files) blocks.now }
            requires few { first < 2 ^ 40 }
            ensures { IfOk result (λ v. ArePieces (shared_inputs shared.entry) first (map block_of blocks.entry.now) v.items) }
        { pieces(rt, alloc, gate, &shared, blocks, first, workers) },
        PhantomData::<Brand>,
        sums,
        first,
        workers,
    )
}
