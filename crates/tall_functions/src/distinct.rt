//! Distinct cells of a column in memory (docs/LANGUAGE.md, functions: unique).
ghost use Rattle.std.specs.Prelude.{◌≡◌, IfOk};
ghost use Rattle.tall_value.specs.Distinct as all;
ghost use Rattle.tall_local.specs.MemoryFunctions.{memory_distinct, with_cells};
ghost use Rattle.tall_memory.specs.Values.{Gives, ref_seen};

use std::alloc::{AllocError, Global};
use tall_column::Column;
use tall_group::UniqueFold;
use tall_memory::{MemoryFault, MemoryRef, MemoryValue};

fn distinct_cells(alloc: Global, x: &Column) -> Result<Column, AllocError>
    ensures { IfOk result (λ c. c ≡ with_cells all.distinct x.now) }
{
    let mut fold = UniqueFold::new(alloc, x.class());
    fold.add_column(x)?;
    fold.finish()
}

/// The distinct cells of a column in rising order, and last each NaN. BadArgument for a scalar; BadClass for a table or
/// texts (MathWorks, unique).
pub fn memory_distinct(alloc: Global, v: &MemoryRef<'_>) -> Result<MemoryValue, MemoryFault>
    ensures { Gives (memory_distinct (ref_seen v.now)) result }
{
    match v {
        MemoryRef::Scalar(_) => Err(MemoryFault::BadArgument),
        MemoryRef::Column(x) => Ok(MemoryValue::column(distinct_cells(alloc, x)?)),
        MemoryRef::Table(_) => Err(MemoryFault::BadClass),
        MemoryRef::Texts(_) => Err(MemoryFault::BadClass),
    }
}
