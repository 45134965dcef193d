//! Taking the pieces out of a closed table.
ghost use Rattle.std.specs.Prelude.{◌≡◌, ℕ, ◌<◌, ◌≤◌, [], Some, vec_len, vec_capacity};
ghost use Rattle.std.specs.Slots.{slots_items, slots_len, slots_filled, IsFull};
ghost use mathlib.Core.Option.{some};
ghost use lib.ListN.{get_elem?};
ghost use Rattle.tall_board.specs.Pieces.{InPlace};

use crate::rule::Right;
use atomic_table::Closed;
use std::alloc::Global;

// The pieces in place order, into a vector that has the room.
pub fn collect<T: Right>(
    mut closed: Closed<Option<T::Piece>, Global>,
    task: &T,
    places: usize,
    mut pieces: Vec<T::Piece>,
) -> Vec<T::Piece>
    requires full { IsFull closed.words × IsFull closed.slots × (slots_len closed.slots ≡ places) }
    requires right { (k : ℕ) → k < places → (p : T.Piece) × (get_elem? (slots_items closed.slots) k ≡ some (Some p)) × T.right task.now k p }
    requires room { (pieces.items ≡ []) × (places ≤ vec_capacity pieces) }
    ensures all { vec_len result ≡ places }
    ensures right { InPlace (T.right task.now) 0 result.items }
{
    for place in 0..places {
        let Some(piece) = closed.take(place) else {
            unreachable!()
        };
        pieces.push_reserved(piece);
    }
    closed.free();
    pieces
}
