//! How often files may have been opened, a history that only proofs read. It takes no memory, and its methods do nothing at run
//! time.
ghost use Rattle.std.specs.Prelude.{◌≡◌, List, [], ◌++◌, ℕ};
ghost use Rattle.std.specs.Borrow.{ftrue};

use std::marker::{Model, PhantomData};

/// A clause reads the openings as `items`: names of files, and how often each of them may be opened.
#[derive(Drop)]
pub(crate) struct Allowed {
    of: PhantomData<u8>,
    pub ghost items: { List (List (List ℕ) × ℕ) },
}

impl Model for Allowed {
    ghost also_owns = { λ _. ftrue };
}

impl Allowed {
    /// No openings.
    pub(crate) fn new() -> Allowed
        ensures { result.items ≡ [] }
    {
        Allowed { of: PhantomData }
    }

    /// These openings, and behind them more, which the proof at the call tells by what is lent.
    pub(crate) fn and<A>(&self, _told_by: &A) -> Allowed
        ghost more: { List (List (List ℕ) × ℕ) }
        ensures { result.items ≡ self.now.items ++ more }
    {
        Allowed { of: PhantomData }
    }
}
