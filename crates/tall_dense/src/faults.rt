//! Why an operator over rows refuses.
ghost use Rattle.std.specs.Prelude.{◌≡◌};

use std::alloc::AllocError;
use tall_value::CellFault;

/// Why an operator over rows gives no column.
#[derive(Clone, Copy, Debug, PartialEq, Eq)]
pub enum OpFault {
    /// The first row, counted from 0, where the operator has no result.
    At { row: usize, fault: CellFault },
    /// There is no memory for the column.
    Memory,
}

impl From<AllocError> for OpFault {
    ghost use Rattle.tall_dense.specs.declared.faults.OpFault.TheVariants.{Memory};

    ghost from_gives = { λ _ e. e ≡ Memory };

    fn from(_: AllocError) -> OpFault {
        OpFault::Memory
    }
}
