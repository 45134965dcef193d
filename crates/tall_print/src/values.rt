//! A value under its name.
ghost use Rattle.std.specs.Prelude.{◌≡◌, ◌++◌, List, ℕ, codes, length, map, string_bytes};
ghost use Rattle.std.specs.Fmt.{decimal};
ghost use Rattle.tall_value.specs.OwnedCells.{owned_seen};
ghost use Rattle.tall_column.specs.Tables.{height_of};
ghost use Rattle.tall_local.specs.Memory as memory;
ghost use Rattle.tall_local.specs.Printing.{class_name as name_of_class, head_line, memory_text};
ghost use Rattle.tall_print.specs.Appended.{Appends, AppendsOrKeeps};
ghost use Rattle.tall_print.specs.Seen.{value_seen};

use crate::cells::{class_name, push, push_cell, push_count};
use crate::lines::{push_column, push_table};
use std::alloc::{AllocError, Global};
use tall_column::{Column, Table, Value};
use tall_value::{Cell, Owned};

/// Adds a name and what stands behind it in each first line.
#[tactic(auto, using(crate::proofs::Appending::begun, crate::proofs::Appending::begun_more))]
fn push_name(text: &mut Vec<u8>, name: &str) -> Result<(), AllocError>
    ensures { Appends result text.old.items text.new.items (name.now ++ codes " = ") }
{
    push(text, name.as_bytes())?;
    push(text, b" = ")
}

/// Adds a cell under a name.
#[tactic(auto, using(crate::proofs::Appending::begun, crate::proofs::Appending::begun_more), unfolding(tall_local::specs::Printing::memory_text))]
fn push_scalar(text: &mut Vec<u8>, name: &str, cell: &Owned) -> Result<(), AllocError>
    ensures { Appends result text.old.items text.new.items (memory_text name.now (memory.scalar (owned_seen cell.now))) }
{
    let cell = cell.cell();
    push_name(text, name)?;
    push(text, class_name(cell.class()).as_bytes())?;
    push(text, b" ")?;
    push_cell(text, &cell)?;
    push(text, b"\n")
}

/// Adds the first line of a column.
#[tactic(auto, using(crate::proofs::Appending::begun, crate::proofs::Appending::begun_more))]
fn push_column_head(text: &mut Vec<u8>, name: &str, column: &Column) -> Result<(), AllocError>
    ensures { Appends result text.old.items text.new.items (head_line name.now (name_of_class column.now.class ++ codes " " ++ decimal (length column.now.cells) ++ codes "x1")) }
{
    push_name(text, name)?;
    push(text, class_name(column.class()).as_bytes())?;
    push(text, b" ")?;
    push_count(text, column.len())?;
    push(text, b"x1\n")
}

/// Adds a column under a name.
#[tactic(auto, using(crate::proofs::Appending::begun, crate::proofs::Appending::begun_more), unfolding(tall_local::specs::Printing::memory_text))]
fn push_whole_column(text: &mut Vec<u8>, name: &str, column: &Column) -> Result<(), AllocError>
    ensures { Appends result text.old.items text.new.items (memory_text name.now (memory.column column.now)) }
{
    push_column_head(text, name, column)?;
    push_column(text, column.values())
}

/// Adds a table's size.
#[tactic(auto, using(crate::proofs::Appending::begun, crate::proofs::Appending::begun_more))]
fn push_size(text: &mut Vec<u8>, table: &Table) -> Result<(), AllocError>
    ensures { Appends result text.old.items text.new.items (codes "table " ++ decimal (height_of table.now) ++ codes "x" ++ decimal (length table.now)) }
{
    push(text, b"table ")?;
    push_count(text, table.height())?;
    push(text, b"x")?;
    push_count(text, table.width())
}

/// Adds the first line of a table.
#[tactic(auto, using(crate::proofs::Appending::begun, crate::proofs::Appending::begun_more))]
fn push_table_head(text: &mut Vec<u8>, name: &str, table: &Table) -> Result<(), AllocError>
    ensures { Appends result text.old.items text.new.items (head_line name.now (codes "table " ++ decimal (height_of table.now) ++ codes "x" ++ decimal (length table.now))) }
{
    push_name(text, name)?;
    push_size(text, table)?;
    push(text, b"\n")
}

/// Adds a table under a name.
#[tactic(auto, using(crate::proofs::Appending::begun, crate::proofs::Appending::begun_more), unfolding(tall_local::specs::Printing::memory_text))]
fn push_whole_table(text: &mut Vec<u8>, name: &str, table: &Table) -> Result<(), AllocError>
    ensures { Appends result text.old.items text.new.items (memory_text name.now (memory.table table.now)) }
{
    push_table_head(text, name, table)?;
    push_table(text, table)
}

/// Adds a value under a name.
fn push_value(text: &mut Vec<u8>, name: &str, value: &Value) -> Result<(), AllocError>
    ensures { Appends result text.old.items text.new.items (memory_text name.now (value_seen value.now)) }
{
    match value {
        Value::Scalar(cell) => push_scalar(text, name, cell),
        Value::Column(column) => push_whole_column(text, name, column),
        Value::Table(table) => push_whole_table(text, name, table),
    }
}

/// Adds the line of a value that shows its kind alone.
#[tactic(auto, using(crate::proofs::Appending::begun, crate::proofs::Appending::begun_more))]
fn push_kind(text: &mut Vec<u8>, name: &str, kind: &str) -> Result<(), AllocError>
    ensures { Appends result text.old.items text.new.items (head_line name.now kind.now) }
{
    push_name(text, name)?;
    push(text, kind.as_bytes())?;
    push(text, b"\n")
}

/// Adds the line of a list of texts.
#[tactic(auto, using(crate::proofs::Appending::begun, crate::proofs::Appending::begun_more), unfolding(tall_local::specs::Printing::memory_text))]
fn push_list(text: &mut Vec<u8>, name: &str, list: &[String]) -> Result<(), AllocError>
    ensures { Appends result text.old.items text.new.items (memory_text name.now (memory.texts (map string_bytes list.now))) }
{
    push_name(text, name)?;
    push(text, b"list ")?;
    push_count(text, list.len())?;
    push(text, b"\n")
}

/// The text as it was before so many bytes were all of it, where something was refused.
#[tactic(auto, using(crate::proofs::Appending::front_kept))]
fn kept(text: &mut Vec<u8>, before: usize, added: Result<(), AllocError>) -> Result<(), AllocError>
    ensures { (front more : List ℕ) → before ≡ length front → Appends added front text.old.items more → AppendsOrKeeps result front text.new.items more }
{
    if added.is_err() {
        text.truncate(before);
    }
    added
}

/// Adds a value under its name: a scalar's line, or the first line of a column or a table and then its rows.
///
/// # Errors
/// For want of memory alone; the text is then as it was.
pub fn print_value(
    _alloc: Global,
    name: &str,
    value: &Value,
    text: &mut Vec<u8>,
) -> Result<(), AllocError>
    ensures { AppendsOrKeeps result text.old.items text.new.items (memory_text name.now (value_seen value.now)) }
{
    let before = text.len();
    let added = push_value(text, name, value);
    kept(text, before, added)
}

/// Adds the line of a value of which only the kind is shown: `tall` with a class, `tall table`, `datastore`.
///
/// # Errors
/// For want of memory alone; the text is then as it was.
pub fn print_kind(
    _alloc: Global,
    name: &str,
    kind: &str,
    text: &mut Vec<u8>,
) -> Result<(), AllocError>
    ensures { AppendsOrKeeps result text.old.items text.new.items (head_line name.now kind.now) }
{
    let before = text.len();
    let added = push_kind(text, name, kind);
    kept(text, before, added)
}

/// Adds the line of a list of texts, which shows how many they are.
///
/// # Errors
/// For want of memory alone; the text is then as it was.
pub fn print_texts(
    _alloc: Global,
    name: &str,
    list: &[String],
    text: &mut Vec<u8>,
) -> Result<(), AllocError>
    ensures { AppendsOrKeeps result text.old.items text.new.items (memory_text name.now (memory.texts (map string_bytes list.now))) }
{
    let before = text.len();
    let added = push_list(text, name, list);
    kept(text, before, added)
}
