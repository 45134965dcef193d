ghost use Rattle.std.specs.Prelude.{◌≡◌, true};
ghost use Rattle.tall_board.specs.Seats.{view_of, IsIdle};

use crate::{Board, BoardSeat, Right, Task};
use std::test::Fail;
use std::thread::join;

// The piece of a place is its number.
#[derive(Drop)]
struct Numbers;

impl Right for Numbers {
    type Piece = u64;

    ghost right = { λ _ place piece. piece ≡ place };
}

impl Task for Numbers {
    fn piece(&self, place: u64) -> u64 {
        place
    }
}

// Claims and publishes until no place is left.
fn fill(board: &Board<Numbers>, seat: BoardSeat<u64>) -> BoardSeat<u64>
    requires board { seat.seat.table_id ≡ board.now.table.shared.table_id }
    requires idle { IsIdle seat }
    ensures board { result.seat.table_id ≡ seat.seat.table_id }
    ensures idle { IsIdle result }
    ensures told { ((view_of result).told ≡ true) × ((view_of result).room ≡ (view_of seat).room) }
{
    let mut seat = seat;
    while let Some(ticket) = board.claim(&mut seat) {
        let piece = board.task().piece(ticket.place());
        board.publish(&mut seat, ticket, piece);
    }
    seat
}

#[test]
fn two_branches_fill_three_places(rt: HostRuntime) -> Result<(), Fail> {
    let (board, mut seat) = Board::new(rt.alloc(), Numbers, 3)?;
    let other = board.split(&mut seat);
    let shared = &board;
    let (mut seat, other) = join(
        &rt,
        move || -> BoardSeat<u64>
            requires { (seat.seat.table_id ≡ shared.now.table.shared.table_id) × IsIdle seat }
            ensures { (result.seat.table_id ≡ seat.seat.table_id) × IsIdle result × ((view_of result).told ≡ true) × ((view_of result).room ≡ (view_of seat).room) }
        { fill(shared, seat) },
        move || -> BoardSeat<u64>
            requires { (other.seat.table_id ≡ shared.now.table.shared.table_id) × IsIdle other }
            ensures { (result.seat.table_id ≡ other.seat.table_id) × IsIdle result × ((view_of result).told ≡ true) × ((view_of result).room ≡ (view_of other).room) }
        { fill(shared, other) },
    );
    board.join_seats(&mut seat, other);
    let pieces = board.close(seat);
    assert!(rt; pieces.as_slice() == [0, 1, 2].as_slice());
    Ok(())
}
