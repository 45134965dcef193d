ghost use Rattle.std.specs.Prelude.{◌≡◌, IfOk};

use super::*;
use std::alloc::{AllocError, Global};
use std::process::Abort;
use std::test::Fail;
use tall_int::Whole;
use tall_value::{Binary, Cell, CellFault, Class, Unary, result_class, unary_class};

fn double<'a>(n: i64) -> Cell<'a> {
    Cell::Double(Whole::new(n).unwrap_or(Whole::nan()))
}

/// A column of cells; those of another class are left out.
fn column_of(alloc: Global, class: Class, cells: &[Cell<'_>]) -> Result<Column, AllocError>
    ensures { IfOk result (λ c. c.class ≡ class) }
{
    let mut column = Column::new(alloc, class);
    for cell in cells {
        if cell.class() == column.class() {
            column.push(cell)?;
        }
    }
    Ok(column)
}

fn is_column(column: &Column, class: Class, cells: &[Cell<'_>]) -> bool {
    if column.class() != class || column.len() != cells.len() {
        return false;
    }
    for row in 0..cells.len() {
        if row >= column.len() || column.get(row) != cells[row] {
            return false;
        }
    }
    true
}

/// None where the class table refuses.
fn mapped(alloc: Global, op: Unary, a: &Column) -> Option<Result<Column, OpFault>> {
    match unary_class(op, a.class()) {
        Ok(_) => Some(map_unary(alloc, op, a)),
        Err(_) => None,
    }
}

/// None where the class table refuses, or the lengths differ.
fn paired(alloc: Global, op: Binary, a: &Column, b: &Column) -> Option<Result<Column, OpFault>> {
    if a.len() != b.len() {
        return None;
    }
    match result_class(op, a.class(), false, b.class(), false) {
        Ok(_) => Some(map_binary(alloc, op, a, b)),
        Err(_) => None,
    }
}

/// The operator with the scalar on the right; none where the class table refuses.
fn followed(
    alloc: Global,
    op: Binary,
    a: &Column,
    b: &Cell<'_>,
) -> Option<Result<Column, OpFault>> {
    match result_class(op, a.class(), false, b.class(), true) {
        Ok(_) => Some(map_scalar(alloc, op, a, b, false)),
        Err(_) => None,
    }
}

fn gives(rt: &impl Abort, made: Option<Result<Column, OpFault>>, class: Class, want: &[Cell<'_>]) {
    match made {
        Some(Ok(column)) => assert!(rt; is_column(&column, class, want)),
        Some(Err(fault)) => assert!(rt; false, "refused: {fault:?}"),
        None => assert!(rt; false, "the classes are refused"),
    }
}

fn fails(rt: &impl Abort, made: Option<Result<Column, OpFault>>, row: usize, fault: CellFault) {
    match made {
        Some(Ok(_)) => assert!(rt; false, "a column"),
        Some(Err(found)) => assert_eq!(rt; found, OpFault::At { row, fault }),
        None => assert!(rt; false, "the classes are refused"),
    }
}

#[test]
fn calls(rt: HostRuntime) -> Result<(), Fail> {
    let alloc = rt.alloc();
    let bytes = column_of(alloc, Class::Int8, &[Cell::I8(-128), Cell::I8(7)])?;
    let doubles = column_of(
        alloc,
        Class::Double,
        &[double(7), Cell::Double(Whole::nan())],
    )?;
    let texts = column_of(alloc, Class::Text, &[Cell::Text("é"), Cell::Text("日本")])?;
    let mask = column_of(
        alloc,
        Class::Logical,
        &[Cell::Logical(false), Cell::Logical(true)],
    )?;
    gives(
        &rt,
        followed(alloc, Binary::Add, &bytes, &double(1000)),
        Class::Int8,
        &[Cell::I8(127), Cell::I8(127)],
    );
    gives(
        &rt,
        paired(alloc, Binary::Lt, &bytes, &doubles),
        Class::Logical,
        &[Cell::Logical(true), Cell::Logical(false)],
    );
    gives(
        &rt,
        followed(alloc, Binary::StrCmp, &texts, &Cell::Text("é")),
        Class::Logical,
        &[Cell::Logical(true), Cell::Logical(false)],
    );
    gives(
        &rt,
        mapped(alloc, Unary::ToDouble, &mask),
        Class::Double,
        &[double(0), double(1)],
    );
    fails(
        &rt,
        mapped(alloc, Unary::Not, &doubles),
        1,
        CellFault::NanLogical,
    );
    Ok(())
}

#[test]
fn table_of_one(rt: HostRuntime) -> Result<(), Fail> {
    let mut table = Table::new(rt.alloc());
    let column = Column::of(rt.alloc(), [true, false].to_vec(rt.alloc())?);
    if table.column("n").is_none() && table.width() == 0 {
        assert!(rt; table.add("n", column).is_ok());
        assert_eq!(rt; table.width(), 1);
        assert_eq!(rt; table.height(), 2);
    }
    Ok(())
}
