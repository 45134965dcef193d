//! Values in memory, kept and lent.
ghost use Rattle.std.specs.Prelude.{◌≡◌, Ok};
ghost use Rattle.tall_value.specs.Cells.{seen};
ghost use Rattle.tall_local.specs.Memory as memory;
ghost use Rattle.tall_local.specs.Memory.{is_scalar, scalar};
ghost use Rattle.tall_memory.specs.Values.{Gives, ref_seen, shown_value, value_seen};

use crate::faults::MemoryFault;
use std::alloc::Global;
use tall_column::{Column, Table, Texts, Value};
use tall_value::{Cell, Owned};

/// A value in memory: a scalar, a column, a table, or a list of texts. A column of one row stays a column.
#[derive(Drop)]
pub enum MemoryValue {
    Value(Value),
    Texts(Texts),
}

/// A value in memory that is lent: an operand, a variable, a block's table.
#[derive(Clone, Copy)]
pub enum MemoryRef<'a> {
    Scalar(Cell<'a>),
    Column(&'a Column),
    Table(&'a Table),
    Texts(&'a Texts),
}

fn lent(value: &Value) -> MemoryRef<'_>
    ensures { ref_seen result ≡ shown_value value.now }
{
    match value {
        Value::Scalar(owned) => MemoryRef::Scalar(owned.cell()),
        Value::Column(column) => MemoryRef::Column(column),
        Value::Table(table) => MemoryRef::Table(table),
    }
}

impl MemoryValue {
    /// The value, lent.
    pub fn lend(&self) -> MemoryRef<'_>
        ensures { ref_seen result ≡ value_seen self.now }
    {
        match self {
            MemoryValue::Value(value) => lent(value),
            MemoryValue::Texts(texts) => MemoryRef::Texts(texts),
        }
    }

    /// A scalar.
    pub fn scalar(alloc: Global, cell: &Cell<'_>) -> Result<MemoryValue, MemoryFault>
        ensures { Gives (Ok (scalar (seen cell.now))) result }
    {
        Ok(MemoryValue::Value(Value::Scalar(Owned::of(alloc, cell)?)))
    }

    /// A column.
    pub fn column(column: Column) -> MemoryValue
        ensures { value_seen result ≡ memory.column column }
    {
        MemoryValue::Value(Value::Column(column))
    }

    /// A table.
    pub fn table(table: Table) -> MemoryValue
        ensures { value_seen result ≡ memory.table table }
    {
        MemoryValue::Value(Value::Table(table))
    }
}

impl<'a> MemoryRef<'a> {
    /// The value is a scalar; a column of one row is none.
    pub fn is_scalar(&self) -> bool
        ensures { result ≡ is_scalar (ref_seen self.now) }
    {
        match self {
            MemoryRef::Scalar(_) => true,
            _ => false,
        }
    }
}
