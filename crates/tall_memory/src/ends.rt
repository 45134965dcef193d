//! The first and the last rows of a column or of a table (docs/LANGUAGE.md, functions: head, tail).
ghost use Rattle.std.specs.Prelude.{◌≡◌, IfOk, min};
ghost use Rattle.tall_local.specs.MemoryFunctions.{memory_rows, with_cells};
ghost use Rattle.tall_local.specs.Names.{each_named};
ghost use Rattle.tall_memory.specs.Ends.{end_rows};
ghost use Rattle.tall_memory.specs.Values.{Gives, ref_seen};

use crate::faults::MemoryFault;
use crate::indexing::add_variable;
use crate::values::{MemoryRef, MemoryValue};
use std::alloc::{AllocError, Global};
use tall_column::{Column, Table};

/// The lesser of a number of rows that is asked for and that of the rows.
fn at_most(k: u64, rows: usize) -> usize
    ensures { result ≡ min k rows }
{
    if k < rows as u64 { k as usize } else { rows }
}

/// The first rows of a column, or the last.
fn column_end(x: &Column, last: bool, k: u64) -> Result<Column, AllocError>
    ensures { IfOk result (λ c. c ≡ with_cells (end_rows last k) x.now) }
{
    let rows = x.len();
    let k = at_most(k, rows);
    if last {
        x.slice(rows - k, rows)
    } else {
        x.slice(0, k)
    }
}

/// The same of each variable of a table.
fn table_end(alloc: Global, t: &Table, last: bool, k: u64) -> Result<Table, AllocError>
    ensures { IfOk result (λ u. u ≡ each_named (with_cells (end_rows last k)) t.now) }
{
    let mut end = Table::new(alloc);
    for i in 0..t.width() {
        let x = column_end(t.at(i), last, k)?;
        add_variable(&mut end, t.name(i), x)?;
    }
    Ok(end)
}

/// So many of the first rows, or of the last; all rows where there are fewer.
pub fn memory_end(
    alloc: Global,
    v: &MemoryRef<'_>,
    last: bool,
    k: u64,
) -> Result<MemoryValue, MemoryFault>
    ensures { Gives (memory_rows (end_rows last k) (ref_seen v.now)) result }
{
    match v {
        MemoryRef::Column(x) => Ok(MemoryValue::column(column_end(x, last, k)?)),
        MemoryRef::Table(t) => Ok(MemoryValue::table(table_end(alloc, t, last, k)?)),
        MemoryRef::Scalar(_) => Err(MemoryFault::BadArgument),
        MemoryRef::Texts(_) => Err(MemoryFault::BadClass),
    }
}
