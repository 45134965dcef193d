//! The lines of columns and tables.
ghost use Rattle.std.specs.Prelude.{◌<◌, [], ◌∷◌, map};
ghost use Rattle.tall_value.specs.Cells.{text as text_cell};
ghost use Rattle.tall_dense.specs.Dense.{shown};
ghost use Rattle.tall_column.specs.Tables.{height_of};
ghost use Rattle.tall_local.specs.Names.{names_of};
ghost use Rattle.tall_local.specs.Printing.{cell_text, column_lines, row_line, spaced, table_lines};
ghost use Rattle.tall_print.specs.Appended.{Appends};
ghost use Rattle.tall_print.specs.Rows.{cells_at, gap};

use crate::cells::{Doubles, Integers, Logicals, Printer, push, push_cell, push_quoted};
use std::alloc::AllocError;
use tall_column::{Stored, Table, Texts, Values};

/// Adds the line of a row of a column.
#[tactic(auto, using(crate::proofs::Appending::begun, crate::proofs::Appending::begun_more))]
fn push_row<T: Stored, P: Printer<T>>(
    text: &mut Vec<u8>,
    printer: P,
    value: T,
) -> Result<(), AllocError>
    ensures { Appends result text.old.items text.new.items (row_line (cell_text (T.shown value) ∷ [])) }
{
    push(text, b"    ")?;
    printer.print(text, value)?;
    push(text, b"\n")
}

/// Adds a line for each value.
#[tactic(auto, using(crate::proofs::Appending::begun, crate::proofs::Appending::begun_more))]
fn push_rows<T: Stored, P: Printer<T>>(
    text: &mut Vec<u8>,
    printer: P,
    items: &[T],
) -> Result<(), AllocError>
    ensures { Appends result text.old.items text.new.items (column_lines (map T.shown items.now)) }
{
    for item in items {
        push_row(text, printer, *item)?;
    }
    Ok(())
}

/// Adds the line of a row of a column of texts.
#[tactic(auto, using(crate::proofs::Appending::begun, crate::proofs::Appending::begun_more))]
fn push_text_row(text: &mut Vec<u8>, value: &str) -> Result<(), AllocError>
    ensures { Appends result text.old.items text.new.items (row_line (cell_text (text_cell value.now) ∷ [])) }
{
    push(text, b"    ")?;
    push_quoted(text, value.as_bytes())?;
    push(text, b"\n")
}

/// Adds a line for each text.
#[tactic(auto, using(crate::proofs::Appending::begun, crate::proofs::Appending::begun_more))]
fn push_texts(text: &mut Vec<u8>, texts: &Texts) -> Result<(), AllocError>
    ensures { Appends result text.old.items text.new.items (column_lines (map (λ s. text_cell s) texts.now)) }
{
    for row in 0..texts.len() {
        push_text_row(text, texts.get(row))?;
    }
    Ok(())
}

/// Adds the lines of a column's values.
pub(crate) fn push_column(text: &mut Vec<u8>, values: &Values) -> Result<(), AllocError>
    ensures { Appends result text.old.items text.new.items (column_lines (shown values.now).cells) }
{
    match values {
        Values::I8(v) => push_rows(text, Integers, v.as_slice()),
        Values::I16(v) => push_rows(text, Integers, v.as_slice()),
        Values::I32(v) => push_rows(text, Integers, v.as_slice()),
        Values::I64(v) => push_rows(text, Integers, v.as_slice()),
        Values::U8(v) => push_rows(text, Integers, v.as_slice()),
        Values::U16(v) => push_rows(text, Integers, v.as_slice()),
        Values::U32(v) => push_rows(text, Integers, v.as_slice()),
        Values::U64(v) => push_rows(text, Integers, v.as_slice()),
        Values::Logical(v) => push_rows(text, Logicals, v.as_slice()),
        Values::Double(v) => push_rows(text, Doubles, v.as_slice()),
        Values::Text(t) => push_texts(text, t),
    }
}

/// Adds what stands in front of the part at a place.
#[tactic(auto, using(crate::proofs::Appending::begun, crate::proofs::Appending::begun_more))]
fn push_gap(text: &mut Vec<u8>, place: usize) -> Result<(), AllocError>
    ensures { Appends result text.old.items text.new.items (gap place) }
{
    if place == 0 {
        return Ok(());
    }
    push(text, b"  ")
}

/// Adds the names of a table's columns.
#[tactic(auto, using(crate::proofs::Appending::begun, crate::proofs::Appending::begun_more))]
fn push_names(text: &mut Vec<u8>, table: &Table) -> Result<(), AllocError>
    ensures { Appends result text.old.items text.new.items (spaced (names_of table.now)) }
{
    for place in 0..table.width() {
        push_gap(text, place)?;
        push(text, table.name(place).as_bytes())?;
    }
    Ok(())
}

/// Adds the cells of a row of a table.
#[tactic(auto, using(crate::proofs::Appending::begun, crate::proofs::Appending::begun_more))]
fn push_cells(text: &mut Vec<u8>, table: &Table, row: usize) -> Result<(), AllocError>
    requires { row < height_of table.now }
    ensures { Appends result text.old.items text.new.items (spaced (map cell_text (cells_at row table.now))) }
{
    for place in 0..table.width() {
        push_gap(text, place)?;
        push_cell(text, &table.at(place).get(row))?;
    }
    Ok(())
}

/// Adds the line of a table's names.
#[tactic(auto, using(crate::proofs::Appending::begun, crate::proofs::Appending::begun_more))]
fn push_head_line(text: &mut Vec<u8>, table: &Table) -> Result<(), AllocError>
    ensures { Appends result text.old.items text.new.items (row_line (names_of table.now)) }
{
    push(text, b"    ")?;
    push_names(text, table)?;
    push(text, b"\n")
}

/// Adds the line of a row of a table.
#[tactic(auto, using(crate::proofs::Appending::begun, crate::proofs::Appending::begun_more))]
fn push_table_row(text: &mut Vec<u8>, table: &Table, row: usize) -> Result<(), AllocError>
    requires { row < height_of table.now }
    ensures { Appends result text.old.items text.new.items (row_line (map cell_text (cells_at row table.now))) }
{
    push(text, b"    ")?;
    push_cells(text, table, row)?;
    push(text, b"\n")
}

/// Adds the line of the names and a line for each row.
#[tactic(auto, using(crate::proofs::Appending::begun, crate::proofs::Appending::begun_more))]
pub(crate) fn push_table(text: &mut Vec<u8>, table: &Table) -> Result<(), AllocError>
    ensures { Appends result text.old.items text.new.items (table_lines table.now) }
{
    push_head_line(text, table)?;
    for row in 0..table.height() {
        push_table_row(text, table, row)?;
    }
    Ok(())
}
