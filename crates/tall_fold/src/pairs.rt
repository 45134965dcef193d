//! Row numbers beside cells.

use std::alloc::{AllocError, Global};
use tall_column::Column;
use tall_value::{Cell, Class};

/// Rows: their numbers, and their cells in a column.
#[derive(Drop)]
pub(crate) struct Pairs {
    pub numbers: Vec<u64>,
    pub cells: Column,
}

impl Pairs {
    ghost use Rattle.std.specs.Prelude.{◌≡◌, ◌+◌, ◌≤◌, ◌++◌, ◌∷◌, [], IfOk, MatchResult, drop, length};
    ghost use Rattle.tall_value.specs.Cells.{seen};
    ghost use Rattle.tall_dense.specs.Columns.{class_of_cell};
    ghost use Rattle.tall_fold.specs.FirstAndLast.{AreEven, rows_of};

    /// No rows, of a class.
    pub(crate) fn new(alloc: Global, class: Class) -> Pairs
        ensures none { result.numbers.items ≡ [] }
        ensures rows { rows_of result ≡ [] }
        ensures even { AreEven result }
        ensures class { result.cells.class ≡ class }
    {
        Pairs {
            numbers: Vec::new(alloc),
            cells: Column::new(alloc, class),
        }
    }

    /// The number of rows.
    pub(crate) fn len(&self) -> usize
        ensures { result ≡ length self.now.numbers.items }
    {
        self.numbers.len()
    }

    /// Adds a row at the end; refused for want of memory alone, with the rows as they were.
    #[tactic(auto, using(crate::proofs::PairLemmas::pushed))]
    pub(crate) fn push(&mut self, number: u64, cell: &Cell<'_>) -> Result<(), AllocError>
        requires class { class_of_cell (seen cell.now) ≡ self.old.cells.class }
        requires even { AreEven self.old }
        ensures rows { MatchResult result (λ _. rows_of self.new ≡ rows_of self.old ++ (number, seen cell.now) ∷ []) (λ _. rows_of self.new ≡ rows_of self.old) }
        ensures count { MatchResult result (λ _. length self.new.numbers.items ≡ length self.old.numbers.items + 1) (λ _. length self.new.numbers.items ≡ length self.old.numbers.items) }
        ensures even { AreEven self.new }
        ensures class { self.new.cells.class ≡ self.old.cells.class }
    {
        self.numbers.push(number)?;
        match self.cells.push(cell) {
            Ok(()) => Ok(()),
            Err(error) => {
                self.numbers.pop();
                Err(error)
            }
        }
    }

    /// The rows from one on, counted from 0.
    pub(crate) fn behind(&self, alloc: Global, from: usize) -> Result<Pairs, AllocError>
        requires within { from ≤ length self.now.numbers.items }
        requires even { AreEven self.now }
        ensures { IfOk result (λ p. (rows_of p ≡ drop from (rows_of self.now)) × AreEven p × (p.cells.class ≡ self.now.cells.class)) }
    {
        Ok(Pairs {
            numbers: Vec::from_slice(alloc, &self.numbers[from..])?,
            cells: self.cells.slice(from, self.cells.len())?,
        })
    }
}
