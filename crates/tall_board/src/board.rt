//! The running board.
ghost use Rattle.std.specs.Prelude.{◌≡◌, ◌+◌, ◌*◌, ◌^◌, ◌<◌, ◌≤◌, vec_len, vec_capacity};

use crate::closing::collect;
use crate::rule::{BoardRule, Both, Claims, Halves, Job, Publishes, Right};
use crate::view::View;
use atomic_table::{Seat, Table};
use std::alloc::{AllocError, Global};

/// Places of a task, which seats claim and publish pieces for.
#[derive(Drop)]
pub struct Board<T: Right + Drop> {
    table: Table<Option<T::Piece>, View, Job<T>, BoardRule<T>, Global>,
    job: Job<T>,
    pieces: Vec<T::Piece>,
    ghost keyed: { table.shared.key ≡ job },
    ghost counts: { (table.shared.table_id.words ≡ 2) × (table.shared.table_id.slots ≡ job.places) × (job.places < 2 ^ 32) },
    ghost ready: { (vec_len pieces ≡ 0) × (job.places ≤ vec_capacity pieces) },
}

/// The right of one worker to claim places of one board.
#[derive(Drop)]
pub struct BoardSeat<P> {
    seat: Seat<Option<P>, View>,
    told: bool,
    ghost same: { told ≡ seat.me.0.told },
    ghost able: { 0 < seat.me.0.room },
}

/// A place that was claimed.
#[derive(Drop)]
pub struct Ticket {
    place: u64,
}

impl Ticket {
    pub fn place(&self) -> u64
        ensures { result ≡ self.now.place }
    {
        self.place
    }
}

impl<T: Right + Drop> Board<T> {
    ghost use Rattle.std.specs.Prelude.{◌≡◌, ◌+◌, ◌^◌, ◌<◌, ◌≤◌, true, IfOk, IfSome, IsNone, IfNone, vec_len};
    ghost use Rattle.tall_board.specs.Rule as rule;
    ghost use Rattle.tall_board.specs.Seats.{view_of, IsIdle, HasPlace};
    ghost use Rattle.tall_board.specs.Pieces.{InPlace};

    /// A board with its first seat. All memory that publishing and closing need is taken here.
    pub fn new(
        alloc: Global,
        task: T,
        places: u64,
    ) -> Result<(Board<T>, BoardSeat<T::Piece>), AllocError>
        requires { places < 2 ^ 32 }
        ensures job { IfOk result (λ b. (b.0.job.places ≡ places) × (b.0.job.task ≡ task)) }
        ensures seat { IfOk result (λ b. (b.1.seat.table_id ≡ b.0.table.shared.table_id) × IsIdle b.1 × (view_of b.1 ≡ rule.first_view)) }
    {
        let pieces = Vec::with_capacity(alloc, places as usize)?;
        let job = Job { places, task };
        let (table, seat) = Table::vacant(alloc, &[0, 0], places as usize, &job)?;
        Ok((
            Board { table, job, pieces },
            BoardSeat { seat, told: false },
        ))
    }

    pub fn task(&self) -> &T
        ensures { result.now ≡ self.now.job.task }
    {
        &self.job.task
    }

    /// A second seat with half of the room, rounded down.
    pub fn split(&self, seat: &mut BoardSeat<T::Piece>) -> BoardSeat<T::Piece>
        requires board { seat.old.seat.table_id ≡ self.now.table.shared.table_id }
        requires idle { IsIdle seat.old }
        requires room { 2 ≤ (view_of seat.old).room }
        ensures board { (seat.new.seat.table_id ≡ seat.old.seat.table_id) × (result.seat.table_id ≡ seat.old.seat.table_id) }
        ensures idle { IsIdle seat.new × IsIdle result }
        ensures views { (view_of seat.new ≡ rule.rest_of (view_of seat.old)) × (view_of result ≡ rule.half_of (view_of seat.old)) }
    {
        let other = self.table.shared.split_seat::<Halves>(&mut seat.seat);
        BoardSeat {
            seat: other,
            told: seat.told,
        }
    }

    /// The seat takes in another one, with its room.
    pub fn join_seats(&self, seat: &mut BoardSeat<T::Piece>, other: BoardSeat<T::Piece>)
        requires board { (seat.old.seat.table_id ≡ self.now.table.shared.table_id) × (other.seat.table_id ≡ self.now.table.shared.table_id) }
        requires idle { IsIdle seat.old × IsIdle other }
        ensures board { seat.new.seat.table_id ≡ seat.old.seat.table_id }
        ensures idle { IsIdle seat.new }
        ensures view { view_of seat.new ≡ rule.joined (view_of seat.old) (view_of other) }
    {
        let BoardSeat { seat: other, told } = other;
        self.table.shared.join_seat::<Both>(&mut seat.seat, other);
        seat.told = seat.told || told;
    }

    /// The next place; `None` exactly where the seat's step found that none is left, or the seat was told so before.
    pub fn claim(&self, seat: &mut BoardSeat<T::Piece>) -> Option<Ticket>
        requires board { seat.old.seat.table_id ≡ self.now.table.shared.table_id }
        requires idle { IsIdle seat.old }
        ensures board { seat.new.seat.table_id ≡ seat.old.seat.table_id }
        ensures told { (view_of seat.old).told ≡ true → IsNone result }
        ensures some { IfSome result (λ ticket. HasPlace seat.new ticket.place × (view_of seat.new ≡ rule.with_ticket (view_of seat.old) ticket.place) × ((view_of seat.old).seen ≤ ticket.place) × (ticket.place < self.now.job.places)) }
        ensures none { IfNone result (IsIdle seat.new × (view_of seat.new ≡ rule.told_none (view_of seat.old))) }
    {
        if seat.told {
            return None;
        }
        let place = self.table.shared.fetch_add::<Claims>(&mut seat.seat, 0, 1);
        if place < self.job.places {
            return Some(Ticket { place });
        }
        seat.told = true;
        None
    }

    /// Lays the piece on the ticket's place, and publishes it.
    pub fn publish(&self, seat: &mut BoardSeat<T::Piece>, ticket: Ticket, piece: T::Piece)
        requires board { seat.old.seat.table_id ≡ self.now.table.shared.table_id }
        requires ticket { HasPlace seat.old ticket.place }
        requires right { T.right self.now.job.task ticket.place piece }
        ensures board { seat.new.seat.table_id ≡ seat.old.seat.table_id }
        ensures idle { IsIdle seat.new }
        ensures view { view_of seat.new ≡ rule.idle (view_of seat.old) }
    {
        let Ticket { place } = ticket;
        let _empty = self
            .table
            .shared
            .exchange(&mut seat.seat, place as usize, Some(piece));
        self.table
            .shared
            .fetch_add::<Publishes>(&mut seat.seat, 1, 1);
    }

    /// The pieces, in place order: all other seats were joined into this one, and each was told that no place is left.
    pub fn close(self, seat: BoardSeat<T::Piece>) -> Vec<T::Piece>
        requires board { seat.seat.table_id ≡ self.table.shared.table_id }
        requires idle { IsIdle seat }
        requires joined { (view_of seat).room ≡ 2 ^ 32 }
        requires told { (view_of seat).told ≡ true }
        ensures all { vec_len result ≡ self.job.places }
        ensures right { InPlace (T.right self.job.task) 0 result.items }
    {
        let Board { table, job, pieces } = self;
        let BoardSeat { seat, told: _ } = seat;
        collect(
            table.close_with(seat),
            &job.task,
            job.places as usize,
            pieces,
        )
    }
}
