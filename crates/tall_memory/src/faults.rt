//! Why there is no value.
ghost use Rattle.std.specs.Prelude.{◌≡◌, Err};
ghost use Rattle.tall_local.specs.Refusals.{refused_class};
ghost use Rattle.tall_memory.specs.Values.{Gives};

use crate::values::MemoryValue;
use std::alloc::AllocError;
use tall_value::{ClassFault, FaultKind, Name};

/// Why an operator, an index or a function over values in memory gives no value (docs/LANGUAGE.md, fault lines).
#[derive(Drop)]
pub enum MemoryFault {
    /// No variable of a table has this name.
    Undefined(Name),
    /// Integers combine only with integers of the same class, or scalar doubles.
    MixedClass,
    /// The operator or function does not take the class.
    BadClass,
    /// Two columns, or a column and a mask, of unequal lengths.
    BadSize,
    /// The arguments have another form.
    BadArgument,
    /// No row has this number.
    BadIndex,
    /// The data of a row, counted from 1, or of no row.
    Data { row: Option<u64>, kind: FaultKind },
    /// There is no memory for the value.
    Memory,
}

impl From<AllocError> for MemoryFault {
    ghost use Rattle.tall_memory.specs.declared.faults.MemoryFault.TheVariants.{Memory};

    ghost from_gives = { λ _ e. e ≡ Memory };

    fn from(_: AllocError) -> MemoryFault {
        MemoryFault::Memory
    }
}

/// The fault of classes that a table refuses.
pub fn refused_class(fault: ClassFault) -> Result<MemoryValue, MemoryFault>
    ensures { Gives (Err (refused_class fault)) result }
{
    match fault {
        ClassFault::MixedClass => Err(MemoryFault::MixedClass),
        ClassFault::BadClass => Err(MemoryFault::BadClass),
    }
}
