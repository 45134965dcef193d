//! The map calls for the blocks of a window.
ghost use Rattle.std.specs.Prelude.{◌<◌, ◌^◌, IfOk, length};
ghost use Rattle.std.specs.List.{AllZip};
ghost use Rattle.tall_grammar.specs.Views.{routine_of};
ghost use Rattle.tall_mapred.specs.Phases.{AreWaiting};
ghost use Rattle.tall_mapred.specs.Pieces.{IsBlockPiece};

use crate::calls::{CallPiece, map_piece};
use crate::given::Shared;
use std::alloc::{AllocError, Global};
use std::thread::Threads;
use tall_board::{Right, Task};
use tall_crew::work;
use tall_outside::Gate;
use tall_store::FileBlock;

/// The map call for each block of a window.
#[derive(Drop)]
struct BlockCalls<'a> {
    alloc: Global,
    shared: Shared<'a>,
    blocks: &'a [FileBlock],
    ghost waits: { AreWaiting (length shared.store.now.files) blocks.now },
}

impl<'a> Right for BlockCalls<'a> {
    ghost use Rattle.tall_grammar.specs.Views.{routine_of};
    ghost use Rattle.tall_mapred.specs.Pieces.{IsBlockPiece, IsOfPlace};

    type Piece = CallPiece;

    ghost right = { λ calls place piece. IsOfPlace (IsBlockPiece calls.shared.store.now (routine_of calls.shared.function.now)) calls.blocks.now place piece };
}

impl<'a> Task for BlockCalls<'a> {
    fn piece(&self, place: u64) -> CallPiece {
        let Shared { store, function } = self.shared;
        match self.blocks.get(place as usize) {
            Some(block) => map_piece(self.alloc, store, function, block),
            None => CallPiece::Memory,
        }
    }
}

/// The map call for each block of a window, in order, made by the workers. Refused for want of memory alone.
pub(crate) fn block_pieces<R: Threads + Sync, G: Gate + Sync>(
    rt: &R,
    alloc: Global,
    gate: &G,
    shared: &Shared<'_>,
    blocks: &[FileBlock],
    workers: u32,
) -> Result<Vec<CallPiece>, AllocError>
    requires some { 0 < workers }
    requires few { length blocks.now < 2 ^ 32 }
    requires waits { AreWaiting (length shared.now.store.now.files) blocks.now }
    ensures { IfOk result (λ v. AllZip (IsBlockPiece shared.now.store.now (routine_of shared.now.function.now)) blocks.now v.items) }
{
    let calls = BlockCalls {
        alloc,
        shared: *shared,
        blocks,
    };
    work(rt, alloc, gate, calls, blocks.len() as u64, workers)
}
