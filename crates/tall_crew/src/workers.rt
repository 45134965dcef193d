//! A task done by several workers.
ghost use Rattle.std.specs.Prelude.{◌≡◌, ℕ, ◌+◌, ◌^◌, ◌<◌, ◌≤◌, [], ◌∷◌, true, vec_len, IfOk};
ghost use Rattle.std.specs.Thread.{IsSync};
ghost use Rattle.tall_board.specs.Seats.{view_of, IsIdle};
ghost use Rattle.tall_board.specs.Pieces.{InPlace};

use std::alloc::{AllocError, Global};
use std::thread::{Threads, join};
use tall_board::{Board, BoardSeat, Task};
use tall_outside::Gate;

// Claims and publishes until no place is left.
fn run_worker<T: Task + Drop, G: Gate>(
    gate: &G,
    board: &Board<T>,
    seat: BoardSeat<T::Piece>,
) -> BoardSeat<T::Piece>
    requires board { seat.seat.table_id ≡ board.now.table.shared.table_id }
    requires idle { IsIdle seat }
    ensures board { result.seat.table_id ≡ seat.seat.table_id }
    ensures idle { IsIdle result }
    ensures told { ((view_of result).told ≡ true) × ((view_of result).room ≡ (view_of seat).room) }
{
    let mut seat = seat;
    while let Some(ticket) = board.claim(&mut seat) {
        gate.between(ticket.place());
        let piece = board.task().piece(ticket.place());
        board.publish(&mut seat, ticket, piece);
    }
    seat
}

// The workers are halved until one is left in each branch.
fn crew<R: Threads + Sync, T: Task + Sync + Drop, G: Gate + Sync>(
    rt: &R,
    gate: &G,
    board: &Board<T>,
    seat: BoardSeat<T::Piece>,
    workers: u32,
) -> BoardSeat<T::Piece>
    requires board { seat.seat.table_id ≡ board.now.table.shared.table_id }
    requires idle { IsIdle seat }
    requires room { (0 < workers) × (workers ≤ (view_of seat).room) }
    ensures board { result.seat.table_id ≡ seat.seat.table_id }
    ensures idle { IsIdle result }
    ensures told { ((view_of result).told ≡ true) × ((view_of result).room ≡ (view_of seat).room) }
{
    if workers == 1 {
        return run_worker(gate, board, seat);
    }
    let half = workers / 2;
    let first = workers - half;
    let mut seat = seat;
    let other = board.split(&mut seat);
    let (mut seat, other) = join(
        rt,
        move || -> BoardSeat<T::Piece>
            requires { IsSync R.row × IsSync T.row × IsSync G.row × (seat.seat.table_id ≡ board.now.table.shared.table_id) × IsIdle seat × (0 < first) × (first ≤ (view_of seat).room) }
            ensures { (result.seat.table_id ≡ seat.seat.table_id) × IsIdle result × ((view_of result).told ≡ true) × ((view_of result).room ≡ (view_of seat).room) }
        { crew(rt, gate, board, seat, first) },
        move || -> BoardSeat<T::Piece>
            requires { IsSync R.row × IsSync T.row × IsSync G.row × (other.seat.table_id ≡ board.now.table.shared.table_id) × IsIdle other × (0 < half) × (half ≤ (view_of other).room) }
            ensures { (result.seat.table_id ≡ other.seat.table_id) × IsIdle result × ((view_of result).told ≡ true) × ((view_of result).room ≡ (view_of other).room) }
        { crew(rt, gate, board, other, half) },
    );
    board.join_seats(&mut seat, other);
    seat
}

// No more workers than places, so that no branch is started for nothing.
fn at_most(places: u64, workers: u32) -> u32
    requires { 0 < workers }
    ensures { (0 < result) × (result ≤ workers) }
{
    if places < workers as u64 {
        return places.max(1) as u32;
    }
    workers
}

/// The right piece of each place, in place order, made by so many workers, or fewer where there are fewer places. With
/// one worker no thread is started.
/// An `Err` is want of memory, found before any piece was made.
pub fn work<R: Threads + Sync, T: Task + Sync + Drop, G: Gate + Sync>(
    rt: &R,
    alloc: Global,
    gate: &G,
    task: T,
    places: u64,
    workers: u32,
) -> Result<Vec<T::Piece>, AllocError>
    requires some { 0 < workers }
    requires few { places < 2 ^ 32 }
    ensures all { IfOk result (λ pieces. vec_len pieces ≡ places) }
    ensures right { IfOk result (λ pieces. InPlace (T.right task) 0 pieces.items) }
{
    let (board, seat) = Board::new(alloc, task, places)?;
    let seat = crew(rt, gate, &board, seat, at_most(places, workers));
    Ok(board.close(seat))
}
