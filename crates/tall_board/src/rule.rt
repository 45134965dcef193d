//! Tasks, and the rule of the table under a board.
ghost use Rattle.std.specs.Prelude.{ℕ};
ghost use Rattle.tall_board.specs.Rule as rule;

use crate::view::View;
use atomic_table::{Join, Play, Split, TableRule};
use std::marker::PhantomData;

/// Which pieces are right for a place. It has no call, so whoever has only this can make no piece.
pub trait Right {
    type Piece: Send + Sync + Drop;

    ghost right: { Self → ℕ → Self.Piece → Type 0 };
}

/// A task that makes the piece of each place.
pub trait Task: Right {
    /// A right piece for the place.
    fn piece(&self, place: u64) -> Self::Piece
        ensures { Self.right self.now place result };
}

/// A task and its number of places: what no step of a board changes.
#[derive(Drop)]
pub struct Job<T> {
    pub places: u64,
    pub task: T,
}

pub struct BoardRule<T> {
    task: PhantomData<T>,
}

impl<T: Right> TableRule<Option<T::Piece>, View, Job<T>> for BoardRule<T> {
    ghost holds = { λ job s. rule.Kept (T.right job.task) job.places s };

    ghost first = { λ _. rule.first_view };
}

pub struct Claims;

impl<P> Play<Option<P>, View> for Claims {
    ghost then = { rule.Claimed };
}

pub struct Publishes;

impl<P> Play<Option<P>, View> for Publishes {
    ghost then = { rule.Published };
}

pub struct Halves;

impl Split<View> for Halves {
    ghost left = { rule.rest_of };

    ghost right = { rule.half_of };
}

pub struct Both;

impl Join<View> for Both {
    ghost both = { rule.joined };

    ghost spent = { rule.spent };
}
