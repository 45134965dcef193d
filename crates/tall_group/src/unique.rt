//! The distinct cells of a column.
ghost use Rattle.std.specs.Prelude.{◌≡◌, ◌++◌, ℕ, [], ◌∷◌, IfErr, IfOk, List, take};
ghost use Rattle.std.specs.List.{All};
ghost use Rattle.tall_value.specs.Cells.{Seen, is_nan, seen};
ghost use Rattle.tall_value.specs.Classes.{kind_of};
ghost use Rattle.tall_value.specs.Columns.{HasKind};
ghost use Rattle.tall_value.specs.Distinct.{distinct};
ghost use Rattle.tall_dense.specs.Columns.{class_of_cell};
ghost use Rattle.tall_group.specs.Keys.{nans_of};
ghost use Rattle.tall_group.specs.UniqueFolds.{IsUniqueOf, class_of_unique};

use crate::numbers::{Number, key_cell};
use crate::table::KeyTable;
use std::alloc::{AllocError, Global};
use tall_column::Column;
use tall_value::{Cell, Class};

/// The distinct cells of a column (MathWorks, unique), which may come in blocks. It keeps each cell but NaN once, and the
/// number of NaNs, each of which is kept.
#[derive(Drop)]
pub struct UniqueFold {
    keys: KeyTable,
    nans: u64,
}

/// The cell is NaN.
fn is_nan(cell: &Cell<'_>) -> bool
    ensures { result ≡ is_nan (seen cell.now) }
{
    match *cell {
        Cell::Double(d) => d.get().is_none(),
        _ => false,
    }
}

/// Adds so many NaNs, where the class is double.
fn add_nans(column: &mut Column, nans: u64) -> Result<(), AllocError>
    ensures class { column.new.class ≡ column.old.class }
    ensures cells { IfOk result (λ _. column.new.cells ≡ column.old.cells ++ nans_of (kind_of column.old.class) nans) }
{
    let kind = column.class().kind();
    for _turn in 0..nans {
        column.push(&key_cell(kind, Number::Nan))?;
    }
    Ok(())
}

impl UniqueFold {
    /// No cells yet.
    pub fn new(alloc: Global, class: Class) -> UniqueFold
        ensures class { class_of_unique result ≡ class }
        ensures none { IsUniqueOf result [] }
    {
        UniqueFold {
            keys: KeyTable::new(alloc, class),
            nans: 0,
        }
    }

    /// Adds a cell of the class; refused for want of memory alone, with the cells so far as they were.
    pub fn add(&mut self, cell: &Cell<'_>) -> Result<(), AllocError>
        requires { class_of_cell (seen cell.now) ≡ class_of_unique self.old }
        ensures class { class_of_unique self.new ≡ class_of_unique self.old }
        ensures cells { (cs : List Seen) → IsUniqueOf self.old cs → IfOk result (λ _. IsUniqueOf self.new (cs ++ seen cell.now ∷ [])) }
        ensures refused { (cs : List Seen) → IsUniqueOf self.old cs → IfErr result (λ _. IsUniqueOf self.new cs) }
    {
        if is_nan(cell) {
            // More rows than that fit no memory.
            self.nans = self.nans.checked_add(1).ok_or(AllocError)?;
            return Ok(());
        }
        self.keys.place(cell)?;
        Ok(())
    }

    /// Adds the cells of a column of the class; refused for want of memory alone, after the first of the cells.
    pub fn add_column(&mut self, column: &Column) -> Result<(), AllocError>
        requires { column.now.class ≡ class_of_unique self.old }
        ensures class { class_of_unique self.new ≡ class_of_unique self.old }
        ensures cells { (cs : List Seen) → IsUniqueOf self.old cs → IfOk result (λ _. IsUniqueOf self.new (cs ++ column.now.cells)) }
        ensures refused { (cs : List Seen) → IsUniqueOf self.old cs → IfErr result (λ _. (n : ℕ) × IsUniqueOf self.new (cs ++ take n column.now.cells)) }
    {
        for row in 0..column.len() {
            self.add(&column.get(row))?;
        }
        Ok(())
    }

    /// Adds the cells that come behind; refused for want of memory alone, after some of them.
    pub fn join(&mut self, later: UniqueFold) -> Result<(), AllocError>
        requires { class_of_unique later ≡ class_of_unique self.old }
        ensures class { class_of_unique self.new ≡ class_of_unique self.old }
        ensures cells { (cs ds : List Seen) → IsUniqueOf self.old cs → IsUniqueOf later ds → IfOk result (λ _. IsUniqueOf self.new (cs ++ ds)) }
    {
        self.keys.place_keys(&later.keys)?;
        self.nans = self.nans.checked_add(later.nans).ok_or(AllocError)?;
        Ok(())
    }

    /// The distinct cells in rising order, and last each NaN.
    pub fn finish(self) -> Result<Column, AllocError>
        ensures class { IfOk result (λ c. c.class ≡ class_of_unique self) }
        ensures cells { (cs : List Seen) → IsUniqueOf self cs → IfOk result (λ c. c.cells ≡ distinct cs) }
    {
        let mut column = self.keys.sorted()?.column;
        add_nans(&mut column, self.nans)?;
        Ok(column)
    }
}
