//! The pieces of a window of blocks.
ghost use Rattle.std.specs.Prelude.{◌≡◌, ◌<◌, ◌^◌, ℕ, IfOk, Some, length, map, slice_get};
ghost use Rattle.tall_semantics.specs.Deferred.{IsAmong};
ghost use Rattle.tall_store.specs.declared.file_rows.FileBlock.{FileBlock};
ghost use Rattle.tall_piece.specs.Joins.{AreWays};
ghost use Rattle.tall_walk.specs.Events.{block_of};
ghost use Rattle.tall_pass.specs.Taken.{ArePieces, AreWaiting, IsRightAt, IsWaiting};
ghost use Rattle.tall_pass.specs.Takers.{shared_inputs};

use crate::given::Shared;
use std::alloc::{AllocError, Global};
use std::thread::Threads;
use tall_board::{Right, Task};
use tall_crew::work;
use tall_outside::Gate;
use tall_piece::{Piece, block_piece};
use tall_store::FileBlock;

/// The first number of places that no board has.
const BOARD_LIMIT: usize = 1 << 32;

/// The work on the blocks of a window, whose first block has this number among the datastore's blocks.
#[derive(Drop)]
struct Window<'a> {
    alloc: Global,
    shared: Shared<'a>,
    blocks: &'a [FileBlock],
    first: u64,
    ghost places: { (i : ℕ) → IsAmong shared.all.now i → i < length shared.graph.now },
    ghost ways: { ∥ AreWays shared.graph.now shared.wanted.now ∥₁ },
    ghost waits: { (i : ℕ) (b : FileBlock) → slice_get blocks.now i ≡ Some b → IsWaiting (length shared.store.now.files) b },
    ghost few: { first < 2 ^ 40 },
}

impl<'a> Right for Window<'a> {
    type Piece = Piece;

    ghost right = { λ w place piece. IsRightAt (shared_inputs w.shared) w.first w.blocks.now place piece };
}

impl<'a> Task for Window<'a> {
    fn piece(&self, place: u64) -> Piece {
        let Some(block) = self.blocks.get(place as usize) else {
            return Piece::Memory;
        };
        let Shared {
            store,
            graph,
            known,
            all,
            wanted,
        } = self.shared;
        block_piece(
            self.alloc,
            store,
            graph,
            all,
            wanted,
            known,
            block,
            self.first + place,
        )
    }
}

/// The piece of each block of a window, in their order, made by so many workers, where the first block has this number among
/// the datastore's blocks. Refused for want of memory alone.
pub(crate) fn pieces<R: Threads + Sync, G: Gate + Sync>(
    rt: &R,
    alloc: Global,
    gate: &G,
    shared: &Shared<'_>,
    blocks: &[FileBlock],
    first: u64,
    workers: u32,
) -> Result<Vec<Piece>, AllocError>
    requires some { 0 < workers }
    requires places { (i : ℕ) → IsAmong shared.now.all.now i → i < length shared.now.graph.now }
    requires ways { AreWays shared.now.graph.now shared.now.wanted.now }
    requires waits { AreWaiting (length shared.now.store.now.files) blocks.now }
    requires few { first < 2 ^ 40 }
    ensures { IfOk result (λ v. ArePieces (shared_inputs shared.now) first (map block_of blocks.now) v.items) }
{
    // A board has no more places; nor has any window so many blocks.
    if blocks.len() >= BOARD_LIMIT {
        return Err(AllocError);
    }
    let places = blocks.len() as u64;
    let window = Window {
        alloc,
        shared: *shared,
        blocks,
        first,
    };
    work(rt, alloc, gate, window, places, workers)
}
