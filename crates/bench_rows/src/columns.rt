//! Columns of numbers that every class has.
ghost use Rattle.std.specs.Prelude.{◌≡◌, IfOk};
ghost use Rattle.tall_value.specs.declared.class.Class.TheVariants as class;

use std::alloc::{AllocError, Global};
use tall_column::Column;
use tall_int::{Whole, clamp};
use tall_value::{Cell, Class};

/// A column of -32768, -32767, and so on, which begins again after 32767.
pub(crate) fn rising(alloc: Global, rows: usize) -> Result<Column, AllocError>
    ensures { IfOk result (λ c. c.class ≡ class.Int16) }
{
    let mut column = Column::new(alloc, Class::Int16);
    for row in 0..rows {
        let n = (row % 65536) as i64 - 32768;
        column.push(&Cell::I16(n as i16))?;
    }
    Ok(column)
}

/// The cell of a number from -128 to 127, as near as the class has it.
fn cell<'a>(class: Class, n: i32) -> Cell<'a> {
    let number = n as i128;
    match class {
        Class::Int8 => Cell::I8(clamp(number)),
        Class::Int16 => Cell::I16(clamp(number)),
        Class::Int32 => Cell::I32(clamp(number)),
        Class::Int64 => Cell::I64(clamp(number)),
        Class::Uint8 => Cell::U8(clamp(number)),
        Class::Uint16 => Cell::U16(clamp(number)),
        Class::Uint32 => Cell::U32(clamp(number)),
        Class::Uint64 => Cell::U64(clamp(number)),
        Class::Logical => Cell::Logical(n > 0),
        Class::Double => Cell::Double(Whole::of_small(n)),
        Class::Text => Cell::Text("x"),
    }
}

/// A column of -16, -14, and so on up to 14, again and again.
pub(crate) fn first_column(alloc: Global, class: Class, rows: usize) -> Result<Column, AllocError> {
    let mut column = Column::new(alloc, class);
    for row in 0..rows {
        let n = (row % 16) as i32 * 2 - 16;
        let next = cell(class, n);
        if next.class() == column.class() {
            column.push(&next)?;
        }
    }
    Ok(column)
}

/// A column of 1 and 2 in turn, which divide the numbers of the first.
pub(crate) fn second_column(
    alloc: Global,
    class: Class,
    rows: usize,
) -> Result<Column, AllocError> {
    let mut column = Column::new(alloc, class);
    for row in 0..rows {
        let n = (row % 2) as i32 + 1;
        let next = cell(class, n);
        if next.class() == column.class() {
            column.push(&next)?;
        }
    }
    Ok(column)
}
