//! The text of a cell.
ghost use Rattle.std.specs.Prelude.{◌≡◌, codes};
ghost use Rattle.std.specs.Fmt.{decimal, signed_decimal};
ghost use Rattle.std.specs.List.{flat_map};
ghost use Rattle.tall_value.specs.Cells.{seen};
ghost use Rattle.tall_local.specs.Printing.{cell_text, class_name, doubled, quoted};
ghost use Rattle.tall_local.specs.Printing as spec;
ghost use Rattle.tall_print.specs.Appended.{Appends};

use itoa::Buffer;
use std::alloc::AllocError;
use tall_column::{Integer, Stored};
use tall_int::Whole;
use tall_value::{Cell, Class, Content};

/// Adds bytes.
#[tactic(auto, using(crate::proofs::Appending::begun, crate::proofs::Appending::begun_more))]
pub(crate) fn push(text: &mut Vec<u8>, bytes: &[u8]) -> Result<(), AllocError>
    ensures { Appends result text.old.items text.new.items bytes.now }
{
    text.extend_from_slice(bytes)
}

/// Adds a count.
pub(crate) fn push_count(text: &mut Vec<u8>, n: usize) -> Result<(), AllocError>
    ensures { Appends result text.old.items text.new.items (decimal n) }
{
    let mut buffer = Buffer::new();
    push(text, buffer.format(n).as_bytes())
}

/// Adds a number. One of 64 bits goes the fast way.
pub(crate) fn push_number(text: &mut Vec<u8>, n: i128) -> Result<(), AllocError>
    ensures { Appends result text.old.items text.new.items (signed_decimal n) }
{
    let mut buffer = Buffer::new();
    if i64::MIN as i128 <= n && n <= i64::MAX as i128 {
        push(text, buffer.format(n as i64).as_bytes())
    } else {
        push(text, buffer.format(n).as_bytes())
    }
}

/// What prints the values of a column that are kept in a vector.
pub(crate) trait Printer<T: Stored>: Copy {
    /// Adds a value's text.
    fn print(self, text: &mut Vec<u8>, value: T) -> Result<(), AllocError>
        ensures { Appends result text.old.items text.new.items (cell_text (T.shown value)) };
}

/// Values of an integer class.
#[derive(Clone, Copy)]
pub(crate) struct Integers;

impl<I: Integer> Printer<I> for Integers {
    fn print(self, text: &mut Vec<u8>, value: I) -> Result<(), AllocError> {
        push_number(text, value.wide())
    }
}

/// Logicals.
#[derive(Clone, Copy)]
pub(crate) struct Logicals;

impl Printer<bool> for Logicals {
    fn print(self, text: &mut Vec<u8>, value: bool) -> Result<(), AllocError> {
        if value {
            push(text, b"1")
        } else {
            push(text, b"0")
        }
    }
}

/// Doubles.
#[derive(Clone, Copy)]
pub(crate) struct Doubles;

impl Printer<Whole> for Doubles {
    fn print(self, text: &mut Vec<u8>, value: Whole) -> Result<(), AllocError> {
        match value.get() {
            Some(n) => push_number(text, n as i128),
            None => push(text, b"NaN"),
        }
    }
}

/// Adds a byte, and a quote twice.
#[tactic(auto, using(crate::proofs::Appending::begun, crate::proofs::Appending::begun_more))]
fn push_doubled(text: &mut Vec<u8>, byte: u8) -> Result<(), AllocError>
    ensures { Appends result text.old.items text.new.items (doubled byte) }
{
    if byte == b'"' {
        push(text, b"\"\"")
    } else {
        push(text, &[byte])
    }
}

/// Adds the bytes of a text, each quote twice.
#[tactic(auto, using(crate::proofs::Appending::begun, crate::proofs::Appending::begun_more))]
fn push_inside(text: &mut Vec<u8>, bytes: &[u8]) -> Result<(), AllocError>
    ensures { Appends result text.old.items text.new.items (flat_map doubled bytes.now) }
{
    for byte in bytes {
        push_doubled(text, *byte)?;
    }
    Ok(())
}

/// Adds a text between quotes, each quote in it twice.
#[tactic(auto, using(crate::proofs::Appending::begun, crate::proofs::Appending::begun_more))]
pub(crate) fn push_quoted(text: &mut Vec<u8>, bytes: &[u8]) -> Result<(), AllocError>
    ensures { Appends result text.old.items text.new.items (quoted bytes.now) }
{
    push(text, b"\"")?;
    push_inside(text, bytes)?;
    push(text, b"\"")
}

/// Adds the text of a cell.
pub(crate) fn push_cell(text: &mut Vec<u8>, cell: &Cell<'_>) -> Result<(), AllocError>
    ensures { Appends result text.old.items text.new.items (cell_text (seen cell.now)) }
{
    match cell.content() {
        Content::Whole(_, n) => push_number(text, n),
        Content::Logical(b) => Logicals.print(text, b),
        Content::Double(d) => Doubles.print(text, d),
        Content::Text(t) => push_quoted(text, t.as_bytes()),
    }
}

/// The name of a class.
pub(crate) fn class_name(class: Class) -> &'static str
    ensures { result.now ≡ spec.class_name class }
{
    match class {
        Class::Int8 => "int8",
        Class::Int16 => "int16",
        Class::Int32 => "int32",
        Class::Int64 => "int64",
        Class::Uint8 => "uint8",
        Class::Uint16 => "uint16",
        Class::Uint32 => "uint32",
        Class::Uint64 => "uint64",
        Class::Logical => "logical",
        Class::Double => "double",
        Class::Text => "string",
    }
}
