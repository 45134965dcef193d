//! A task done beside other work.
ghost use Rattle.std.specs.Prelude.{◌≡◌, ℕ, ◌^◌, ◌<◌, vec_len, IfOk};
ghost use Rattle.tall_board.specs.Pieces.{InPlace};

use crate::workers::work;
use std::alloc::{AllocError, Global};
use std::thread::{Threads, join};
use tall_board::Task;
use tall_outside::Gate;

/// As `work`, while `beside` runs at the same time: it is run once, and its answer is given also where memory was
/// wanting for the board.
pub fn work_beside<
    R: Threads + Sync,
    T: Task + Sync + Drop,
    G: Gate + Sync,
    B: Send + Drop,
    F: FnOnce() -> B + Send + Drop,
>(
    rt: &R,
    alloc: Global,
    gate: &G,
    task: T,
    places: u64,
    workers: u32,
    beside: F,
) -> (Result<Vec<T::Piece>, AllocError>, B)
    requires some { 0 < workers }
    requires few { places < 2 ^ 32 }
    requires beside { F.pre beside }
    ensures all { IfOk result.0 (λ pieces. vec_len pieces ≡ places) }
    ensures right { IfOk result.0 (λ pieces. InPlace (T.right task) 0 pieces.items) }
    ensures answer { F.post beside result.1 }
{
    let (answer, pieces) = join(
        rt,
        beside,
        move || -> Result<Vec<T::Piece>, AllocError>
            requires { (0 < workers) × (places < 2 ^ 32) }
        { work(rt, alloc, gate, task, places, workers) },
    );
    (pieces, answer)
}
