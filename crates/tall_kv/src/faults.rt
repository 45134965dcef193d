//! Why a pair is refused.
ghost use Rattle.std.specs.Prelude.{◌≡◌, Some};
ghost use Rattle.tall_local.specs.Refusals.{stop_at};
ghost use Rattle.tall_kv.specs.Faults.{IsFaultOf, refusal_of};

use std::alloc::AllocError;

/// Why a pair is refused, with the line of its `add` (docs/LANGUAGE.md, mapreduce).
#[derive(Clone, Copy, Debug, PartialEq, Eq)]
pub enum PairFault {
    /// The key is a logical or NaN, or its class is not that of the first key.
    KeyClass { line: u32 },
    /// The value's class is not that of the first value.
    ValueClass { line: u32 },
    /// There are 2^40 - 1 pairs already.
    TooManyRows { line: u32 },
    /// There is no memory for the pair.
    Memory,
}

impl From<AllocError> for PairFault {
    ghost use Rattle.tall_kv.specs.declared.faults.PairFault.TheVariants.{Memory};

    ghost from_gives = { λ _ e. e ≡ Memory };

    fn from(_: AllocError) -> PairFault {
        PairFault::Memory
    }
}

/// What a pair does not fit by.
#[derive(Clone, Copy, Debug, PartialEq, Eq)]
pub(crate) enum Misfit {
    Key,
    Value,
    Number,
}

impl Misfit {
    /// The fault of the `add` on a line.
    pub(crate) fn at(self, line: u32) -> PairFault
        ensures { IsFaultOf (Some (stop_at line (refusal_of self))) result }
    {
        match self {
            Misfit::Key => PairFault::KeyClass { line },
            Misfit::Value => PairFault::ValueClass { line },
            Misfit::Number => PairFault::TooManyRows { line },
        }
    }
}
