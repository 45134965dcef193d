//! Columns.
ghost use Rattle.std.specs.Prelude.{◌≡◌, ◌<◌, ◌≤◌, [], IfOk, MatchResult, Some, length, map, slice_get};
ghost use Rattle.tall_value.specs.declared.class.Class.TheVariants as class;
ghost use Rattle.tall_value.specs.Cells.{seen};
ghost use Rattle.tall_dense.specs.Dense.{shown};
ghost use Rattle.tall_dense.specs.Columns.{class_of_cell, followed_by, rows_between, rows_kept, with_cell};

use std::alloc::{AllocError, Global};
use std::marker::Model;
use tall_dense::{Stored, Values};
use tall_value::{Cell, Class};

/// A column: a class and a list of cells of it, which contracts see as such. It keeps its allocator.
#[derive(Drop)]
pub struct Column {
    values: Values,
    alloc: Global,
}

impl Model for Column {
    ghost use Rattle.tall_dense.specs.Columns.{SeenColumn};

    ghost Value = { SeenColumn };

    ghost use Rattle.tall_dense.specs.Dense.{shown};

    ghost view = { λ c. shown c.values };
}

impl Column {
    /// A column of no rows.
    pub fn new(alloc: Global, class: Class) -> Column
        ensures { result ≡ record { class = class; cells = [] } }
    {
        Column {
            values: Values::new(alloc, class),
            alloc,
        }
    }

    /// A column of no rows, with room for so many; a column of texts has none.
    pub fn with_capacity(alloc: Global, class: Class, rows: usize) -> Result<Column, AllocError>
        ensures { IfOk result (λ c. c ≡ record { class = class; cells = [] }) }
    {
        Ok(Column {
            values: Values::with_capacity(alloc, class, rows)?,
            alloc,
        })
    }

    /// The column of values, which are not copied.
    pub fn of_values(alloc: Global, values: Values) -> Column
        ensures { result ≡ shown values }
    {
        Column { values, alloc }
    }

    /// The column whose cells stand in a vector, which is not copied.
    pub fn of<T: Stored>(alloc: Global, items: Vec<T>) -> Column
        ensures { result ≡ record { class = T.class; cells = map T.shown items.items } }
    {
        Column::of_values(alloc, T::values(items))
    }

    /// The values, lent as they are kept: a match on them gives a vector of the class's type, or the buffer of texts, and
    /// the cells are `shown` of it. A function over `I: Integer`, or over `T: Stored`, serves all such vectors.
    pub fn values(&self) -> &Values
        ensures { shown result.now ≡ self.now }
    {
        &self.values
    }

    /// The class of the cells.
    pub fn class(&self) -> Class
        ensures { result ≡ self.now.class }
    {
        self.values.class()
    }

    /// The number of rows.
    pub fn len(&self) -> usize
        ensures { result ≡ length self.now.cells }
    {
        self.values.len()
    }

    /// The cell at a row, counted from 0.
    pub fn get(&self, row: usize) -> Cell<'_>
        requires { row < length self.now.cells }
        ensures cell { slice_get self.now.cells row ≡ Some (seen result) }
        ensures class { class_of_cell (seen result) ≡ self.now.class }
    {
        self.values.get(row)
    }

    /// Adds a cell of the class at the end; refused for want of memory alone, with the column as it was.
    pub fn push(&mut self, cell: &Cell<'_>) -> Result<(), AllocError>
        requires { class_of_cell (seen cell.now) ≡ self.old.class }
        ensures { MatchResult result (λ _. self.new ≡ with_cell self.old (seen cell.now)) (λ _. self.new ≡ self.old) }
    {
        self.values.push(cell)
    }

    /// Adds the rows of a column of the same class; refused for want of memory alone, with the column as it was.
    pub fn concat(&mut self, other: &Column) -> Result<(), AllocError>
        requires { other.now.class ≡ self.old.class }
        ensures { MatchResult result (λ _. self.new ≡ followed_by self.old other.now) (λ _. self.new ≡ self.old) }
    {
        self.values.concat(&other.values)
    }

    /// The rows from `from` to before `to`, counted from 0.
    pub fn slice(&self, from: usize, to: usize) -> Result<Column, AllocError>
        requires ordered { from ≤ to }
        requires within { to ≤ length self.now.cells }
        ensures { IfOk result (λ c. c ≡ rows_between self.now from to) }
    {
        Ok(Column {
            values: self.values.part(self.alloc, from, to)?,
            alloc: self.alloc,
        })
    }

    /// The same column once more.
    pub fn copy(&self) -> Result<Column, AllocError>
        ensures { IfOk result (λ c. c ≡ self.now) }
    {
        self.slice(0, self.len())
    }

    /// The rows where the mask, a logical column of the same length, is true, in order.
    pub fn filter(&self, mask: &Column) -> Result<Column, AllocError>
        requires logical { mask.now.class ≡ class.Logical }
        requires same_length { length mask.now.cells ≡ length self.now.cells }
        ensures { IfOk result (λ c. c ≡ rows_kept self.now mask.now) }
    {
        Ok(Column {
            values: self.values.kept(self.alloc, &mask.values)?,
            alloc: self.alloc,
        })
    }
}
