//! The map phase.
ghost use Rattle.std.specs.Prelude.{◌≡◌, ◌<◌, ◌≤◌, IfOk, List, Result, Some, Vec, length};
ghost use Rattle.std.specs.Borrow.{Bor};
ghost use Rattle.std.specs.List.{AllZip};
ghost use Rattle.std.specs.Thread.{IsSync};
ghost use Rattle.tall_grammar.specs.Views.{routine_of};
ghost use Rattle.tall_outside.specs.Shelf.{Files};
ghost use Rattle.tall_outside.specs.ShelfCounts.{IsLater, shelf_counts};
ghost use Rattle.tall_script.specs.States.{Store};
ghost use Rattle.tall_mapred.specs.Answers.{IsExplained, IsLonger, IsPlaced, OpensFiles, answer_of};
ghost use Rattle.tall_mapred.specs.Phases.{AreWaiting, Maps};
ghost use Rattle.tall_mapred.specs.Pieces.{IsBlockPiece};
ghost use Rattle.tall_mapred.specs.Takers.{EndsWalk, NeedsTaken, Takes, shared_given};

use crate::blocks::block_pieces;
use crate::calls::CallPiece;
use crate::faults::MapFault;
use crate::given::{MapGiven, Shared};
use crate::taker::MapTaker;
use std::alloc::{AllocError, Global};
use std::marker::{Brand, PhantomData};
use std::thread::Threads;
use tall_grammar::Function;
use tall_kv::Pairs;
use tall_outside::{Gate, Shelf};
use tall_script::laws::mapreduce_is_made_of_calls_on_empty_stores;
use tall_store::{Datastore, FileBlock};
use tall_walk::{WalkEnd, walk_files};

/// How many blocks of a window there are for each worker, at most.
const BLOCKS_OF_A_WORKER: usize = 2;

/// Behind the walk: the calls for the blocks that still wait are made, and a fault of these comes before that of a file.
fn end_walk<'a, C: Fn(&[FileBlock]) -> Result<Vec<CallPiece>, AllocError>, K: MapGiven>(
    taker: MapTaker<'a, C, K>,
    end: WalkEnd<MapFault>,
) -> Result<Pairs, MapFault>
    requires { NeedsTaken (Takes C.pre C.post K.MapGiven 0 taker) end }
    ensures { EndsWalk (Takes C.pre C.post K.MapGiven 0 taker.entry) K.given end result }
{
    let mut taker = taker;
    match end {
        WalkEnd::Whole => match taker.work_off() {
            Ok(_) => Ok(taker.pairs),
            Err(fault) => Err(fault),
        },
        WalkEnd::Reading(fault) => match taker.work_off() {
            Ok(_) => Err(MapFault::Reading(fault)),
            Err(earlier) => Err(earlier),
        },
        WalkEnd::Stopped(fault) => Err(fault),
        WalkEnd::Read { file } => Err(MapFault::Read { file }),
        WalkEnd::TooLarge { file } => Err(MapFault::TooLarge { file }),
        WalkEnd::Memory => Err(MapFault::Memory),
    }
}

/// The map phase, with what its calls share by name, and the calls for a window of blocks.
fn map_given<S: Shelf, C: Fn(&[FileBlock]) -> Result<Vec<CallPiece>, AllocError>, K: MapGiven>(
    alloc: Global,
    shelf: &mut S,
    shared: &Shared<'_>,
    call: &C,
    given: PhantomData<K>,
    most: usize,
) -> Result<Pairs, MapFault>
    requires some { 0 < most }
    requires few { most ≤ 128 }
    requires asks { (blocks : Bor (List FileBlock)) → AreWaiting (length shared.now.store.now.files) blocks.now → length blocks.now ≤ 128 → C.pre call.now blocks }
    requires gives { (blocks : Bor (List FileBlock)) (r : Result (Vec CallPiece Global) AllocError) → AreWaiting (length shared.now.store.now.files) blocks.now → length blocks.now ≤ 128 → C.post call.now blocks r → IfOk r (λ v. AllZip (IsBlockPiece shared.now.store.now (routine_of shared.now.function.now)) blocks.now v.items) }
    requires given { K.given ≡ Some (shared_given shared.now) }
    ensures told { (files : Files) → S.held shelf.old ≡ Some files → (d : Store) → d.store ≡ shared.now.store.now → Maps files d (routine_of shared.now.function.now) result }
    ensures held { S.held shelf.new ≡ S.held shelf.old }
    ensures later { IsLater (shelf_counts S.Shelf shelf.old) (shelf_counts S.Shelf shelf.new) }
    ensures opens { OpensFiles shared.now.store.now.files (answer_of result) (S.opened shelf.old) (S.opened shelf.new) }
    ensures explained { IsExplained (answer_of result) (shelf_counts S.Shelf shelf.old) (shelf_counts S.Shelf shelf.new) }
    ensures longer { (files : Files) → S.held shelf.old ≡ Some files → IsLonger shared.now.store.now files (answer_of result) }
    ensures placed { IsPlaced shared.now.store.now (answer_of result) }
{
    let pairs = Pairs::new(alloc);
    let window = Vec::new(alloc);
    let mut taker = MapTaker {
        alloc,
        call,
        most,
        pairs,
        window,
        spare: Vec::new(alloc),
        given,
    };
    mapreduce_is_made_of_calls_on_empty_stores();
    let end = walk_files(shelf, shared.store, &mut taker);
    end_walk(taker, end)
}

/// Calls the map function for each block, over all files, in windows of two blocks for each worker, and appends the pairs in
/// the order of the blocks.
pub(crate) fn map_blocks<R: Threads + Sync, S: Shelf, G: Gate + Sync>(
    rt: &R,
    alloc: Global,
    gate: &G,
    shelf: &mut S,
    store: &Datastore,
    function: &Function,
    workers: u32,
) -> Result<Pairs, MapFault>
    requires some { 0 < workers }
    requires few { workers ≤ 64 }
    ensures told { (files : Files) → S.held shelf.old ≡ Some files → (d : Store) → d.store ≡ store.now → Maps files d (routine_of function.now) result }
    ensures held { S.held shelf.new ≡ S.held shelf.old }
    ensures later { IsLater (shelf_counts S.Shelf shelf.old) (shelf_counts S.Shelf shelf.new) }
    ensures opens { OpensFiles store.now.files (answer_of result) (S.opened shelf.old) (S.opened shelf.new) }
    ensures explained { IsExplained (answer_of result) (shelf_counts S.Shelf shelf.old) (shelf_counts S.Shelf shelf.new) }
    ensures longer { (files : Files) → S.held shelf.old ≡ Some files → IsLonger store.now files (answer_of result) }
    ensures placed { IsPlaced store.now (answer_of result) }
{
    let shared = Shared { store, function };
    map_given(
        alloc,
        shelf,
        &shared,
        &|blocks: &[FileBlock]| -> Result<Vec<CallPiece>, AllocError>
            requires threads { IsSync R.row × IsSync G.row }
            requires some { 0 < workers }
            requires waits { AreWaiting (length shared.store.now.files) blocks.now }
            requires few { length blocks.now ≤ 128 }
            ensures { IfOk result (λ v. AllZip (IsBlockPiece shared.entry.store.now (routine_of shared.entry.function.now)) blocks.entry.now v.items) }
        { block_pieces(rt, alloc, gate, &shared, blocks, workers) },
        PhantomData::<Brand>,
        BLOCKS_OF_A_WORKER * workers as usize,
    )
}
