//! Columns of numbers that seem random.
ghost use Rattle.std.specs.Prelude.{◌≡◌, IfOk};
ghost use Rattle.tall_value.specs.declared.class.Class.TheVariants as class;

use std::alloc::{AllocError, Global};
use tall_column::Column;

/// The number behind a number.
pub(crate) fn next(number: u64) -> u64 {
    number
        .wrapping_mul(6364136223846793005)
        .wrapping_add(1442695040888963407)
}

/// The int16 of a number.
pub(crate) fn small(number: u64) -> i16 {
    let n = ((number >> 33) % 65536) as i64 - 32768;
    n as i16
}

/// A column of int16.
pub(crate) fn numbers(alloc: Global, rows: usize) -> Result<Column, AllocError>
    ensures { IfOk result (λ c. c.class ≡ class.Int16) }
{
    let mut values = Vec::with_capacity(alloc, rows)?;
    let mut number = 1;
    for _row in 0..rows {
        number = next(number);
        values.push(small(number))?;
    }
    Ok(Column::of(alloc, values))
}

/// A column of false.
pub(crate) fn falses(alloc: Global, rows: usize) -> Result<Column, AllocError>
    ensures { IfOk result (λ c. c.class ≡ class.Logical) }
{
    let mut values = Vec::with_capacity(alloc, rows)?;
    for _row in 0..rows {
        values.push(false)?;
    }
    Ok(Column::of(alloc, values))
}
