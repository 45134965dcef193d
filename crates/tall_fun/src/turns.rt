//! The turns of loops that began in a call.
ghost use Rattle.std.specs.Prelude.{◌≡◌, ◌+◌, ◌==◌, true, false, if◌then◌else◌};
ghost use Rattle.tall_local.specs.Calls.{turn_limit};

use std::marker::Model;

/// Fewer turns begin in one call.
pub(crate) const TURN_LIMIT: u32 = 1 << 24;

/// How many turns of loops began in a call: fewer than the limit.
#[derive(Drop)]
pub(crate) struct Turns {
    begun: u32,
}

impl Model for Turns {
    ghost use Rattle.std.specs.Prelude.{ℕ, ◌<◌, ◌^◌};

    ghost Value = { ℕ };

    ghost view = { λ t. t.begun };

    ghost invariant = { λ t. t.begun < 2 ^ 24 };
}

impl Turns {
    /// No turn.
    pub(crate) fn new() -> Turns
        ensures { result ≡ 0 }
    {
        Turns { begun: 0 }
    }

    /// The number of turns.
    pub(crate) fn count(&self) -> u32
        ensures { result ≡ self.now }
    {
        self.begun
    }

    /// One more turn begins, but for the one with which the limit is met.
    pub(crate) fn begin(&mut self) -> bool
        ensures begins { result ≡ true → (self.old + 1 == turn_limit) ≡ false }
        ensures refused { result ≡ false → (self.old + 1 == turn_limit) ≡ true }
        ensures turns { self.new ≡ (if result then self.old + 1 else self.old) }
    {
        if self.begun + 1 == TURN_LIMIT {
            return false;
        }
        self.begun += 1;
        true
    }
}
