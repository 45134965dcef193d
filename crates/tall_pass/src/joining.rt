//! The pieces of blocks, joined in the order of the blocks.
ghost use Rattle.std.specs.Prelude.{◌≡◌, ◌+◌, ◌<◌, ◌^◌, ◌∷◌, ◌++◌, [], true, IfErr, IfNone, IfOk, IfSome, List, length};
ghost use Rattle.std.specs.Vec.Iter.{into_iter_items};
ghost use Rattle.tall_store.specs.Blocks.{Block};
ghost use Rattle.tall_pass.specs.Taken.{EndsBlocks, HasJoined, Inputs, IsJoining, IsRight};

use crate::faults::PassFault;
use std::alloc::Global;
use std::vec::IntoIter;
use tall_piece::{BlockParts, Piece, Sums};

/// The first number that no row of a datastore has.
const ROW_LIMIT: u64 = 1 << 40;

/// The sums of some blocks, and how many these are.
#[derive(Drop)]
pub(crate) struct Joined {
    pub(crate) sums: Sums,
    pub(crate) blocks: u64,
}

impl Joined {
    /// Of no blocks, and for no node; it stands where others are taken out.
    pub(crate) fn none(alloc: Global) -> Joined {
        Joined {
            sums: Sums {
                fault: None,
                rows: 0,
                sums: Vec::new(alloc),
            },
            blocks: 0,
        }
    }
}

/// Whether the rows of a datastore may be these and so many more: fewer than 2^40.
fn has_room(rows: u64, more: u64) -> bool
    ensures { result ≡ true → rows + more < 2 ^ 40 }
{
    match rows.checked_add(more) {
        Some(all) => all < ROW_LIMIT,
        None => false,
    }
}

/// With the parts of the next block.
fn join_parts(alloc: Global, joined: Joined, parts: BlockParts) -> Result<Joined, PassFault>
    requires { (w : Inputs) × (blocks : List Block) × (b : Block) × HasJoined w blocks joined × IsRight w (length blocks) b (Piece.Parts parts) }
    ensures goes { IfOk result (λ j. (w : Inputs) (blocks : List Block) (b : Block) → HasJoined w blocks joined → IsRight w (length blocks) b (Piece.Parts parts) → HasJoined w (blocks ++ b ∷ []) j) }
    ensures memory { IfErr result (λ e. e ≡ PassFault.Memory) }
{
    if !has_room(joined.sums.rows, parts.rows) {
        return Err(PassFault::Memory);
    }
    match joined.sums.join(alloc, parts) {
        Ok(sums) => Ok(Joined {
            sums,
            blocks: joined.blocks + 1,
        }),
        Err(_) => Err(PassFault::Memory),
    }
}

/// With the next piece. Want of memory in a piece, or its reading fault, ends the pass.
fn join_piece(alloc: Global, joined: Joined, piece: Piece) -> Result<Joined, PassFault>
    requires { (w : Inputs) × (blocks : List Block) × (b : Block) × HasJoined w blocks joined × IsRight w (length blocks) b piece }
    ensures goes { IfOk result (λ j. (w : Inputs) (blocks : List Block) (b : Block) → HasJoined w blocks joined → IsRight w (length blocks) b piece → HasJoined w (blocks ++ b ∷ []) j) }
    ensures ends { IfErr result (λ e. (w : Inputs) (blocks : List Block) (b : Block) → IsRight w (length blocks) b piece → EndsBlocks w.store (b ∷ []) e) }
{
    match piece {
        Piece::Parts(parts) => join_parts(alloc, joined, parts),
        Piece::Reading(fault) => Err(PassFault::Reading(fault)),
        Piece::Memory => Err(PassFault::Memory),
    }
}

/// The next piece, where there is one.
fn next_piece(pieces: &mut IntoIter<Piece>) -> Option<Piece>
    ensures some { IfSome result (λ p. into_iter_items pieces.old ≡ p ∷ into_iter_items pieces.new) }
    ensures none { IfNone result (into_iter_items pieces.old ≡ []) }
{
    pieces.next()
}

/// With the pieces of the blocks that follow, in their order, up to the first that ends the pass.
pub(crate) fn join_pieces(
    alloc: Global,
    joined: Joined,
    pieces: Vec<Piece>,
) -> Result<Joined, PassFault>
    requires { (w : Inputs) × (blocks : List Block) × IsJoining w blocks joined pieces.items }
    ensures goes { IfOk result (λ j. (w : Inputs) (blocks : List Block) → IsJoining w blocks joined pieces.items → HasJoined w blocks j) }
    ensures ends { IfErr result (λ e. (w : Inputs) (blocks : List Block) → IsJoining w blocks joined pieces.items → EndsBlocks w.store blocks e) }
{
    let mut all = joined;
    let mut pieces = pieces.into_iter();
    while let Some(piece) = next_piece(&mut pieces) {
        match join_piece(alloc, all, piece) {
            Ok(more) => all = more,
            Err(fault) => return Err(fault),
        }
    }
    Ok(all)
}
