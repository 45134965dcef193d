//! Operators over the rows of columns.
ghost use Rattle.std.specs.Prelude.{◌≡◌, [], IfOk, IsOk, Ok, false, length};
ghost use Rattle.tall_value.specs.Cells.{seen};
ghost use Rattle.tall_value.specs.ClassTables.{binary_class, unary_class as unary_class_of};
ghost use Rattle.tall_value.specs.Columns.{numbered};
ghost use Rattle.tall_value.specs.Elementwise.{beside, binary_rows, scalar_rows, unary_rows};
ghost use Rattle.tall_value.specs.Results.{result_seen};
ghost use Rattle.tall_dense.specs.Columns.{class_of_cell};
ghost use Rattle.tall_dense.specs.Rows.{Answers};
ghost use Rattle.tall_column.specs.Mapped.{scalar_class};

use crate::binaries::column_pairs;
use crate::column::Column;
use crate::scalars::column_beside;
use crate::unaries::column_each;
use std::alloc::Global;
use tall_dense::OpFault;
use tall_value::{
    Binary, Cell, CellFault, Class, ClassFault, Unary, binary, result_class, unary_class,
};

/// The operator at each row of a column whose class it takes (`unary_class`; docs/LANGUAGE.md, operators).
pub fn map_unary(alloc: Global, op: Unary, a: &Column) -> Result<Column, OpFault>
    requires { IsOk (unary_class_of op a.now.class) }
    ensures class { IfOk result (λ c. unary_class_of op a.now.class ≡ Ok c.class) }
    ensures rows { Answers (unary_rows op (numbered 0 a.now.cells)) (λ c. c.cells) result }
{
    let Ok(class) = unary_class(op, a.class()) else {
        unreachable!()
    };
    if a.len() == 0 {
        return Ok(Column::new(alloc, class));
    }
    let values = column_each(alloc, op, a.values())?;
    Ok(Column::of_values(alloc, values))
}

/// Adds the results row by row.
fn add_binary(out: &mut Column, op: Binary, a: &Column, b: &Column) -> Result<(), OpFault>
    requires empty { out.old.cells ≡ [] }
    requires class { binary_class op a.now.class false b.now.class false ≡ Ok out.old.class }
    requires same_length { length b.now.cells ≡ length a.now.cells }
    ensures class { out.new.class ≡ out.old.class }
    ensures rows { Answers (binary_rows op (numbered 0 a.now.cells) (numbered 0 b.now.cells)) (λ _. out.new.cells) result }
{
    for row in 0..a.len() {
        match binary(op, &a.get(row), &b.get(row)) {
            Ok(cell) => out.push(&cell)?,
            Err(fault) => return Err(OpFault::At { row, fault }),
        }
    }
    Ok(())
}

/// The operator at each row of two columns of one length whose classes it takes (`result_class`; docs/LANGUAGE.md,
/// operators).
pub fn map_binary(alloc: Global, op: Binary, a: &Column, b: &Column) -> Result<Column, OpFault>
    requires class { IsOk (binary_class op a.now.class false b.now.class false) }
    requires same_length { length b.now.cells ≡ length a.now.cells }
    ensures class { IfOk result (λ c. binary_class op a.now.class false b.now.class false ≡ Ok c.class) }
    ensures rows { Answers (binary_rows op (numbered 0 a.now.cells) (numbered 0 b.now.cells)) (λ c. c.cells) result }
{
    let Ok(class) = result_class(op, a.class(), false, b.class(), false) else {
        unreachable!()
    };
    if a.len() == 0 {
        return Ok(Column::new(alloc, class));
    }
    if let Some(values) = column_pairs(alloc, op, a.values(), b.values())? {
        return Ok(Column::of_values(alloc, values));
    }
    let mut out = Column::with_capacity(alloc, class, a.len())?;
    add_binary(&mut out, op, a, b)?;
    Ok(out)
}

fn class_beside(
    op: Binary,
    scalar_left: bool,
    scalar: Class,
    column: Class,
) -> Result<Class, ClassFault>
    ensures { result ≡ scalar_class op scalar_left scalar column }
{
    if scalar_left {
        result_class(op, scalar, true, column, false)
    } else {
        result_class(op, column, false, scalar, true)
    }
}

fn beside<'a>(
    op: Binary,
    scalar_left: bool,
    scalar: &Cell<'_>,
    cell: &Cell<'_>,
) -> Result<Cell<'a>, CellFault>
    ensures { result_seen result ≡ beside op scalar_left (seen scalar.now) (seen cell.now) }
{
    if scalar_left {
        binary(op, scalar, cell)
    } else {
        binary(op, cell, scalar)
    }
}

/// Adds the results row by row.
fn add_scalar(
    out: &mut Column,
    op: Binary,
    a: &Column,
    b: &Cell<'_>,
    scalar_left: bool,
) -> Result<(), OpFault>
    requires empty { out.old.cells ≡ [] }
    requires class { scalar_class op scalar_left (class_of_cell (seen b.now)) a.now.class ≡ Ok out.old.class }
    ensures class { out.new.class ≡ out.old.class }
    ensures rows { Answers (scalar_rows op scalar_left (seen b.now) (numbered 0 a.now.cells)) (λ _. out.new.cells) result }
{
    for row in 0..a.len() {
        match beside(op, scalar_left, b, &a.get(row)) {
            Ok(cell) => out.push(&cell)?,
            Err(fault) => return Err(OpFault::At { row, fault }),
        }
    }
    Ok(())
}

/// The operator at each row of a column and a scalar, which is the left operand where the flag is set, and whose classes
/// it takes (`result_class`; docs/LANGUAGE.md, operators).
pub fn map_scalar(
    alloc: Global,
    op: Binary,
    a: &Column,
    b: &Cell<'_>,
    scalar_left: bool,
) -> Result<Column, OpFault>
    requires { IsOk (scalar_class op scalar_left (class_of_cell (seen b.now)) a.now.class) }
    ensures class { IfOk result (λ c. scalar_class op scalar_left (class_of_cell (seen b.now)) a.now.class ≡ Ok c.class) }
    ensures rows { Answers (scalar_rows op scalar_left (seen b.now) (numbered 0 a.now.cells)) (λ c. c.cells) result }
{
    let Ok(class) = class_beside(op, scalar_left, b.class(), a.class()) else {
        unreachable!()
    };
    if a.len() == 0 {
        return Ok(Column::new(alloc, class));
    }
    if let Some(values) = column_beside(alloc, op, a.values(), b, scalar_left)? {
        return Ok(Column::of_values(alloc, values));
    }
    let mut out = Column::with_capacity(alloc, class, a.len())?;
    add_scalar(&mut out, op, a, b, scalar_left)?;
    Ok(out)
}
