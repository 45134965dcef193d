use super::*;
use std::alloc::{AllocError, Global};
use std::test::Fail;
use tall_column::{Column, Table};
use tall_grammar::Infix;
use tall_int::Whole;
use tall_value::{Cell, Class, Unary};

fn double<'a>(n: i64) -> Cell<'a> {
    Cell::Double(Whole::new(n).unwrap_or(Whole::nan()))
}

fn doubles(alloc: Global, a: i64, b: i64) -> Result<Column, AllocError> {
    let mut column = Column::new(alloc, Class::Double);
    for n in [a, b] {
        if column.class() == Class::Double {
            column.push(&Cell::Double(Whole::new(n).unwrap_or(Whole::nan())))?;
        }
    }
    Ok(column)
}

fn is_scalar(found: Result<MemoryValue, MemoryFault>, cell: &Cell<'_>) -> bool {
    match found {
        Ok(value) => match value.lend() {
            MemoryRef::Scalar(c) => c == *cell,
            _ => false,
        },
        Err(_) => false,
    }
}

fn fails_at(found: Result<MemoryValue, MemoryFault>, row: u64) -> bool {
    match found {
        Err(MemoryFault::Data { row: Some(at), .. }) => at == row,
        _ => false,
    }
}

#[test]
fn calls(rt: HostRuntime) -> Result<(), Fail> {
    let alloc = rt.alloc();
    let (a, b) = (doubles(alloc, 6, 3)?, doubles(alloc, 2, 0)?);
    let (x, y) = (MemoryRef::Column(&a), MemoryRef::Column(&b));
    let byte = MemoryRef::Scalar(Cell::I8(100));
    let hundred = MemoryRef::Scalar(double(100));
    assert!(rt;
        is_scalar(
            memory_infix(alloc, Infix::Add, &byte, &hundred),
            &Cell::I8(127)
        )
    );
    assert!(rt; is_scalar(memory_unary(alloc, Unary::Neg, &byte), &Cell::I8(-100)));
    assert!(rt; fails_at(memory_infix(alloc, Infix::DotDiv, &x, &y), 2));
    assert!(rt;
        matches!(
            memory_infix(alloc, Infix::Mul, &x, &y),
            Err(MemoryFault::BadArgument)
        )
    );
    let second = Index::Rows(MemoryRef::Scalar(double(2)));
    assert!(rt; is_scalar(memory_index(alloc, &x, &second), &double(3)));
    let none = Index::Rows(MemoryRef::Scalar(double(3)));
    assert!(rt; matches!(memory_index(alloc, &x, &none), Err(MemoryFault::BadIndex)));
    let table = Table::new(alloc);
    let t = MemoryRef::Table(&table);
    assert!(rt;
        matches!(
            memory_member(alloc, &t, "x"),
            Err(MemoryFault::Undefined(_))
        )
    );
    assert!(rt; constant_named("true") == Some(Cell::Logical(true)));
    Ok(())
}
