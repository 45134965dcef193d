//! The board that workers take places from and lay pieces on, without a lock and without waiting.
//!
//! A place is claimed by one atomic addition, its piece is written into the place's own slot, and the slot is
//! published by a second atomic addition. Whatever the order of these steps over all threads, no place is claimed
//! twice, and when all is done each place has one right piece.
#![tactic(auto)]

mod board;
mod closing;
mod laws;
mod rule;
#[cfg(test)]
mod tests;
mod view;

pub use board::{Board, BoardSeat, Ticket};
pub use laws::{no_place_twice, steps_are_events};
pub use rule::{Job, Right, Task};
pub use view::View;
