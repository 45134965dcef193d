//! Why there is no value.
ghost use Rattle.std.specs.Prelude.{◌≡◌, Err, Result};
ghost use Rattle.tall_local.specs.Memory as memory;
ghost use Rattle.tall_local.specs.Refusals.{Refusal, refused_class};
ghost use Rattle.tall_memory.specs.Values.{Gives, Lends};
ghost use Rattle.tall_script.specs.ScriptValues.{TallValue};
ghost use Rattle.tall_deferred.specs.Faults.{IsDue};

use std::alloc::AllocError;
use tall_memory::MemoryFault;
use tall_value::{ClassFault, FaultKind, Name};

/// Why an operator, an index or a function over values of a script gives no value (docs/LANGUAGE.md, fault lines).
#[derive(Drop)]
pub enum ValueFault {
    /// No variable of a table has this name.
    Undefined(Name),
    /// Integers combine only with integers of the same class, or scalar doubles.
    MixedClass,
    /// The operator or function does not take the class.
    BadClass,
    /// Tall arrays of different rows, or a tall array and a column in memory.
    Incompatible,
    /// Columns in memory of unequal lengths.
    BadSize,
    /// The arguments have another form.
    BadArgument,
    /// No row has this number.
    BadIndex,
    /// The data of a row of a value in memory, counted from 1, or of no row.
    Data { row: Option<u64>, kind: FaultKind },
    /// There is no memory for the value.
    Memory,
}

impl From<AllocError> for ValueFault {
    ghost use Rattle.tall_deferred.specs.declared.faults.ValueFault.TheVariants.{Memory};

    ghost from_gives = { λ _ e. e ≡ Memory };

    fn from(_: AllocError) -> ValueFault {
        ValueFault::Memory
    }
}

/// The fault of a value in memory.
pub(crate) fn of_memory(fault: MemoryFault) -> ValueFault
    ensures gives { (want : Result memory.Memory Refusal) → Gives want (Err fault) → IsDue want result }
    ensures lends { (want : Result memory.Memory Refusal) → Lends want (Err fault) → IsDue want result }
{
    match fault {
        MemoryFault::Undefined(name) => ValueFault::Undefined(name),
        MemoryFault::MixedClass => ValueFault::MixedClass,
        MemoryFault::BadClass => ValueFault::BadClass,
        MemoryFault::BadSize => ValueFault::BadSize,
        MemoryFault::BadArgument => ValueFault::BadArgument,
        MemoryFault::BadIndex => ValueFault::BadIndex,
        MemoryFault::Data { row, kind } => ValueFault::Data { row, kind },
        MemoryFault::Memory => ValueFault::Memory,
    }
}

/// The fault of classes that a table refuses.
pub(crate) fn refused_class(fault: ClassFault) -> ValueFault
    ensures { (want : Result TallValue Refusal) → want ≡ Err (refused_class fault) → IsDue want result }
{
    match fault {
        ClassFault::MixedClass => ValueFault::MixedClass,
        ClassFault::BadClass => ValueFault::BadClass,
    }
}
