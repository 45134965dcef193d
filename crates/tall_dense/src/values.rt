//! The values of a column, by class.
ghost use Rattle.std.specs.Prelude.{◌≡◌, ◌<◌, ◌≤◌, [], IfOk, MatchResult, Some, length, slice_get};
ghost use Rattle.tall_value.specs.declared.class.Class.TheVariants as class;
ghost use Rattle.tall_value.specs.Cells.{seen};
ghost use Rattle.tall_dense.specs.Columns.{class_of_cell, followed_by, rows_between, rows_kept, with_cell};
ghost use Rattle.tall_dense.specs.Dense.{shown};

use crate::stored::{add, add_all, at, kept, part};
use std::alloc::{AllocError, Global};
use tall_int::Whole;
use tall_texts::Texts;
use tall_value::{Cell, Class};

/// The values of a column of each class.
#[derive(Drop)]
pub enum Values {
    I8(Vec<i8>),
    I16(Vec<i16>),
    I32(Vec<i32>),
    I64(Vec<i64>),
    U8(Vec<u8>),
    U16(Vec<u16>),
    U32(Vec<u32>),
    U64(Vec<u64>),
    Logical(Vec<bool>),
    Double(Vec<Whole>),
    Text(Texts),
}

impl Values {
    /// No values, of a class.
    pub fn new(alloc: Global, class: Class) -> Values
        ensures { shown result ≡ record { class = class; cells = [] } }
    {
        match class {
            Class::Int8 => Values::I8(Vec::new(alloc)),
            Class::Int16 => Values::I16(Vec::new(alloc)),
            Class::Int32 => Values::I32(Vec::new(alloc)),
            Class::Int64 => Values::I64(Vec::new(alloc)),
            Class::Uint8 => Values::U8(Vec::new(alloc)),
            Class::Uint16 => Values::U16(Vec::new(alloc)),
            Class::Uint32 => Values::U32(Vec::new(alloc)),
            Class::Uint64 => Values::U64(Vec::new(alloc)),
            Class::Logical => Values::Logical(Vec::new(alloc)),
            Class::Double => Values::Double(Vec::new(alloc)),
            Class::Text => Values::Text(Texts::new(alloc)),
        }
    }

    /// No values, of a class, with room for so many; texts have none.
    pub fn with_capacity(alloc: Global, class: Class, rows: usize) -> Result<Values, AllocError>
        ensures { IfOk result (λ v. shown v ≡ record { class = class; cells = [] }) }
    {
        Ok(match class {
            Class::Int8 => Values::I8(Vec::with_capacity(alloc, rows)?),
            Class::Int16 => Values::I16(Vec::with_capacity(alloc, rows)?),
            Class::Int32 => Values::I32(Vec::with_capacity(alloc, rows)?),
            Class::Int64 => Values::I64(Vec::with_capacity(alloc, rows)?),
            Class::Uint8 => Values::U8(Vec::with_capacity(alloc, rows)?),
            Class::Uint16 => Values::U16(Vec::with_capacity(alloc, rows)?),
            Class::Uint32 => Values::U32(Vec::with_capacity(alloc, rows)?),
            Class::Uint64 => Values::U64(Vec::with_capacity(alloc, rows)?),
            Class::Logical => Values::Logical(Vec::with_capacity(alloc, rows)?),
            Class::Double => Values::Double(Vec::with_capacity(alloc, rows)?),
            Class::Text => Values::Text(Texts::new(alloc)),
        })
    }

    /// The class.
    pub fn class(&self) -> Class
        ensures { result ≡ (shown self.now).class }
    {
        match self {
            Values::I8(_) => Class::Int8,
            Values::I16(_) => Class::Int16,
            Values::I32(_) => Class::Int32,
            Values::I64(_) => Class::Int64,
            Values::U8(_) => Class::Uint8,
            Values::U16(_) => Class::Uint16,
            Values::U32(_) => Class::Uint32,
            Values::U64(_) => Class::Uint64,
            Values::Logical(_) => Class::Logical,
            Values::Double(_) => Class::Double,
            Values::Text(_) => Class::Text,
        }
    }

    /// The number of rows.
    pub fn len(&self) -> usize
        ensures { result ≡ length (shown self.now).cells }
    {
        match self {
            Values::I8(v) => v.len(),
            Values::I16(v) => v.len(),
            Values::I32(v) => v.len(),
            Values::I64(v) => v.len(),
            Values::U8(v) => v.len(),
            Values::U16(v) => v.len(),
            Values::U32(v) => v.len(),
            Values::U64(v) => v.len(),
            Values::Logical(v) => v.len(),
            Values::Double(v) => v.len(),
            Values::Text(t) => t.len(),
        }
    }

    /// The cell at a row.
    pub fn get(&self, row: usize) -> Cell<'_>
        requires { row < length (shown self.now).cells }
        ensures cell { slice_get (shown self.now).cells row ≡ Some (seen result) }
        ensures class { class_of_cell (seen result) ≡ (shown self.now).class }
    {
        match self {
            Values::I8(v) => Cell::I8(at(v.as_slice(), row)),
            Values::I16(v) => Cell::I16(at(v.as_slice(), row)),
            Values::I32(v) => Cell::I32(at(v.as_slice(), row)),
            Values::I64(v) => Cell::I64(at(v.as_slice(), row)),
            Values::U8(v) => Cell::U8(at(v.as_slice(), row)),
            Values::U16(v) => Cell::U16(at(v.as_slice(), row)),
            Values::U32(v) => Cell::U32(at(v.as_slice(), row)),
            Values::U64(v) => Cell::U64(at(v.as_slice(), row)),
            Values::Logical(v) => Cell::Logical(at(v.as_slice(), row)),
            Values::Double(v) => Cell::Double(at(v.as_slice(), row)),
            Values::Text(t) => t.cell(row),
        }
    }

    /// Adds a cell of the class at the end.
    pub fn push(&mut self, cell: &Cell<'_>) -> Result<(), AllocError>
        requires { class_of_cell (seen cell.now) ≡ (shown self.old).class }
        ensures { MatchResult result (λ _. shown self.new ≡ with_cell (shown self.old) (seen cell.now)) (λ _. shown self.new ≡ shown self.old) }
    {
        match (self, cell) {
            (Values::I8(v), Cell::I8(n)) => add(v, *n),
            (Values::I16(v), Cell::I16(n)) => add(v, *n),
            (Values::I32(v), Cell::I32(n)) => add(v, *n),
            (Values::I64(v), Cell::I64(n)) => add(v, *n),
            (Values::U8(v), Cell::U8(n)) => add(v, *n),
            (Values::U16(v), Cell::U16(n)) => add(v, *n),
            (Values::U32(v), Cell::U32(n)) => add(v, *n),
            (Values::U64(v), Cell::U64(n)) => add(v, *n),
            (Values::Logical(v), Cell::Logical(b)) => add(v, *b),
            (Values::Double(v), Cell::Double(d)) => add(v, *d),
            (Values::Text(t), Cell::Text(_)) => t.add(cell),
            _ => unreachable!(),
        }
    }

    /// The values from one row to before another.
    pub fn part(&self, alloc: Global, from: usize, to: usize) -> Result<Values, AllocError>
        requires ordered { from ≤ to }
        requires within { to ≤ length (shown self.now).cells }
        ensures { IfOk result (λ v. shown v ≡ rows_between (shown self.now) from to) }
    {
        Ok(match self {
            Values::I8(v) => Values::I8(part(alloc, v.as_slice(), from, to)?),
            Values::I16(v) => Values::I16(part(alloc, v.as_slice(), from, to)?),
            Values::I32(v) => Values::I32(part(alloc, v.as_slice(), from, to)?),
            Values::I64(v) => Values::I64(part(alloc, v.as_slice(), from, to)?),
            Values::U8(v) => Values::U8(part(alloc, v.as_slice(), from, to)?),
            Values::U16(v) => Values::U16(part(alloc, v.as_slice(), from, to)?),
            Values::U32(v) => Values::U32(part(alloc, v.as_slice(), from, to)?),
            Values::U64(v) => Values::U64(part(alloc, v.as_slice(), from, to)?),
            Values::Logical(v) => Values::Logical(part(alloc, v.as_slice(), from, to)?),
            Values::Double(v) => Values::Double(part(alloc, v.as_slice(), from, to)?),
            Values::Text(t) => Values::Text(t.part(alloc, from, to)?),
        })
    }

    /// The values that a mask keeps.
    pub fn kept(&self, alloc: Global, mask: &Values) -> Result<Values, AllocError>
        requires logical { (shown mask.now).class ≡ class.Logical }
        requires same_length { length (shown mask.now).cells ≡ length (shown self.now).cells }
        ensures { IfOk result (λ v. shown v ≡ rows_kept (shown self.now) (shown mask.now)) }
    {
        let Values::Logical(marks) = mask else {
            unreachable!()
        };
        let marks = marks.as_slice();
        Ok(match self {
            Values::I8(v) => Values::I8(kept(alloc, v.as_slice(), marks)?),
            Values::I16(v) => Values::I16(kept(alloc, v.as_slice(), marks)?),
            Values::I32(v) => Values::I32(kept(alloc, v.as_slice(), marks)?),
            Values::I64(v) => Values::I64(kept(alloc, v.as_slice(), marks)?),
            Values::U8(v) => Values::U8(kept(alloc, v.as_slice(), marks)?),
            Values::U16(v) => Values::U16(kept(alloc, v.as_slice(), marks)?),
            Values::U32(v) => Values::U32(kept(alloc, v.as_slice(), marks)?),
            Values::U64(v) => Values::U64(kept(alloc, v.as_slice(), marks)?),
            Values::Logical(v) => Values::Logical(kept(alloc, v.as_slice(), marks)?),
            Values::Double(v) => Values::Double(kept(alloc, v.as_slice(), marks)?),
            Values::Text(t) => Values::Text(t.kept(alloc, marks)?),
        })
    }

    /// Adds the values of another column of the class at the end.
    pub fn concat(&mut self, other: &Values) -> Result<(), AllocError>
        requires { (shown other.now).class ≡ (shown self.old).class }
        ensures { MatchResult result (λ _. shown self.new ≡ followed_by (shown self.old) (shown other.now)) (λ _. shown self.new ≡ shown self.old) }
    {
        match (self, other) {
            (Values::I8(v), Values::I8(more)) => add_all(v, more),
            (Values::I16(v), Values::I16(more)) => add_all(v, more),
            (Values::I32(v), Values::I32(more)) => add_all(v, more),
            (Values::I64(v), Values::I64(more)) => add_all(v, more),
            (Values::U8(v), Values::U8(more)) => add_all(v, more),
            (Values::U16(v), Values::U16(more)) => add_all(v, more),
            (Values::U32(v), Values::U32(more)) => add_all(v, more),
            (Values::U64(v), Values::U64(more)) => add_all(v, more),
            (Values::Logical(v), Values::Logical(more)) => add_all(v, more),
            (Values::Double(v), Values::Double(more)) => add_all(v, more),
            (Values::Text(t), Values::Text(more)) => t.add_all(more),
            _ => unreachable!(),
        }
    }
}
