//! Why a reading goes no further.

use std::alloc::AllocError;

/// Why a rule reads no further.
#[derive(Clone, Copy, Debug, PartialEq, Eq)]
pub enum Fault {
    /// The rule can't take the token before which so many tokens are left, that token among them; none at the end of
    /// the text.
    Stop(usize),
    /// The turns of a loop have run out, or the depth. It never comes where the turns are more than the tokens and the
    /// depth is above the limit (`each_text_has_one_answer`).
    OutOfTurns,
    /// Want of memory. No definition has it.
    Memory,
}

/// An expression on this line is higher than it may be.
#[derive(Clone, Copy, Debug, PartialEq, Eq)]
pub struct TooHigh {
    pub line: u32,
}

impl From<AllocError> for Fault {
    ghost use Rattle.std.specs.Prelude.{◌≡◌};
    ghost use Rattle.tall_grammar.specs.declared.faults.Fault.TheVariants.{Memory};

    ghost from_gives = { λ _ e. e ≡ Memory };

    fn from(_: AllocError) -> Fault {
        Fault::Memory
    }
}
