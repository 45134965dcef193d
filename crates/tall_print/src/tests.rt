//! The calls at ample memory.
use crate::values::{print_kind, print_texts, print_value};
use std::test::Fail;
use tall_column::{Column, Table, Value};
use tall_int::Whole;
use tall_value::{Cell, Class, Owned};

#[test]
fn a_scalar_and_kinds_are_lines(rt: HostRuntime) -> Result<(), Fail> {
    let alloc = rt.alloc();
    let mut text = Vec::new(alloc);
    let scalar = Owned::of(alloc, &Cell::I8(-7))?;
    print_value(alloc, "s", &Value::Scalar(scalar), &mut text)?;
    print_kind(alloc, "y", "tall uint8", &mut text)?;
    print_texts(alloc, "l", &[], &mut text)?;
    assert!(rt; text.as_slice() == "s = int8 -7\ny = tall uint8\nl = list 0\n".as_bytes());
    Ok(())
}

#[test]
fn a_table_has_a_line_for_each_row(rt: HostRuntime) -> Result<(), Fail> {
    let alloc = rt.alloc();
    let mut numbers = Column::new(alloc, Class::Double);
    numbers.push(&Cell::Double(Whole::nan()))?;
    let mut words = Column::new(alloc, Class::Text);
    words.push(&Cell::Text("a\"b"))?;
    let mut table = Table::new(alloc);
    assert!(rt; table.add("a", numbers).is_ok());
    assert!(rt; table.add("bc", words).is_ok());
    let mut text = Vec::new(alloc);
    print_value(alloc, "t", &Value::Table(table), &mut text)?;
    assert!(rt; text.as_slice() == "t = table 1x2\n    a  bc\n    NaN  \"a\"\"b\"\n".as_bytes());
    Ok(())
}
