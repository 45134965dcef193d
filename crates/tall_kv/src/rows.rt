//! Pairs as they are kept: keys, values and lines of their own.
ghost use Rattle.std.specs.Prelude.{◌≡◌, ◌<◌, ◌≤◌, ◌++◌, ◌∷◌, [], ◌&&◌, ℕ, IfErr, IfNone, IfOk, OnErr, OnOk, Some, length, map, option_map, slice_get, take, true};
ghost use Rattle.tall_value.specs.Cells.{seen};
ghost use Rattle.tall_column.specs.Columns.{class_of_cell};
ghost use Rattle.tall_local.specs.Pairs.{appended, column_of_cells, is_key, judged, misfit, pair_key, pair_value, same_class};
ghost use Rattle.tall_kv.specs.Faults.{IsFaultOf, refusal_of};
ghost use Rattle.tall_kv.specs.Stores.{AllFit, IsKept, IsLong, IsStore, fits_first, rows_pairs};

use crate::faults::{Misfit, PairFault};
use std::alloc::{AllocError, Global};
use tall_column::Column;
use tall_value::{Cell, Class, Content, Kind};

/// A store has fewer pairs.
pub(crate) const LIMIT: usize = 1 << 40;

/// Pairs: as many as there are lines, of the first keys and the first values. What stands behind those was added by a call
/// that then found no memory, and is cut off by the next one.
#[derive(Drop)]
pub(crate) struct Rows {
    pub(crate) keys: Column,
    pub(crate) values: Column,
    pub(crate) lines: Vec<u32>,
}

/// The cell may be a key: an integer, a number that is not NaN, or a text.
fn is_key(cell: &Cell<'_>) -> bool
    ensures { result ≡ is_key (seen cell.now) }
{
    match cell.content() {
        Content::Whole(_, _) => true,
        Content::Logical(_) => false,
        Content::Double(_) => cell.amount().is_some(),
        Content::Text(_) => true,
    }
}

fn same_class(a: &Cell<'_>, b: &Cell<'_>) -> bool
    ensures { result ≡ same_class (seen a.now) (seen b.now) }
{
    match (a.content().kind(), b.content().kind()) {
        (Kind::Integer(j), Kind::Integer(k)) => j.is_same(k),
        (Kind::Logical, Kind::Logical) => true,
        (Kind::Double, Kind::Double) => true,
        (Kind::Text, Kind::Text) => true,
        _ => false,
    }
}

/// The cell has the class of the column's first one, where the column has rows.
fn fits(column: &Column, rows: usize, cell: &Cell<'_>) -> bool
    requires { rows ≤ length column.now.cells }
    ensures fits { result ≡ fits_first (take rows column.now.cells) (seen cell.now) }
    ensures class { result ≡ true → 0 < rows → class_of_cell (seen cell.now) ≡ column.now.class }
{
    rows == 0 || same_class(&column.get(0), cell)
}

/// The cell may be a key, and fits.
fn key_fits(column: &Column, rows: usize, cell: &Cell<'_>) -> bool
    requires { rows ≤ length column.now.cells }
    ensures fits { result ≡ (is_key (seen cell.now) && fits_first (take rows column.now.cells) (seen cell.now)) }
    ensures class { result ≡ true → 0 < rows → class_of_cell (seen cell.now) ≡ column.now.class }
{
    is_key(cell) && fits(column, rows, cell)
}

/// What does not fit, if anything: the key, then the value, then the number of pairs.
fn judged(key: bool, value: bool, room: bool) -> Option<Misfit>
    ensures { option_map refusal_of result ≡ judged key value room }
{
    if !key {
        Some(Misfit::Key)
    } else if !value {
        Some(Misfit::Value)
    } else if !room {
        Some(Misfit::Number)
    } else {
        None
    }
}

/// Cuts off what stands behind the first rows; refused for want of memory alone, with the column as it was.
fn cut(column: &mut Column, rows: usize) -> Result<(), AllocError>
    requires { rows ≤ length column.old.cells }
    ensures class { column.new.class ≡ column.old.class }
    ensures cut { OnOk result (column.new.cells ≡ take rows column.old.cells) }
    ensures kept { take rows column.new.cells ≡ take rows column.old.cells }
    ensures long { rows ≤ length column.new.cells }
{
    if rows < column.len() {
        *column = column.slice(0, rows)?;
    }
    Ok(())
}

/// Adds a cell behind the first rows; where there are none, the column takes its class.
fn add_cell(
    alloc: Global,
    column: &mut Column,
    rows: usize,
    cell: &Cell<'_>,
) -> Result<(), AllocError>
    requires within { rows ≤ length column.old.cells }
    requires class { 0 < rows → class_of_cell (seen cell.now) ≡ column.old.class }
    ensures added { OnOk result (column.new.cells ≡ take rows column.old.cells ++ seen cell.now ∷ []) }
    ensures kept { take rows column.new.cells ≡ take rows column.old.cells }
    ensures long { rows ≤ length column.new.cells }
{
    if rows == 0 {
        *column = Column::new(alloc, cell.class());
    } else {
        cut(column, rows)?;
    }
    column.push(cell)
}

/// Adds the cells of another column behind the first rows; where there are none, that column takes the place of this one.
fn add_cells(column: &mut Column, rows: usize, more: Column) -> Result<(), AllocError>
    requires within { rows ≤ length column.old.cells }
    requires class { 0 < rows → more.class ≡ column.old.class }
    ensures added { OnOk result (column.new.cells ≡ take rows column.old.cells ++ more.cells) }
    ensures kept { take rows column.new.cells ≡ take rows column.old.cells }
    ensures long { rows ≤ length column.new.cells }
{
    if rows == 0 {
        *column = more;
        return Ok(());
    }
    cut(column, rows)?;
    column.concat(&more)
}

/// The first rows of a column as a column of their own; without a row it is one of doubles.
fn front(alloc: Global, column: Column, rows: usize) -> Result<Column, AllocError>
    requires { rows ≤ length column.cells }
    ensures { IfOk result (λ c. c ≡ column_of_cells (take rows column.cells)) }
{
    if rows == 0 {
        return Ok(Column::new(alloc, Class::Double));
    }
    let mut front = column;
    cut(&mut front, rows)?;
    // The first cell has the column's class.
    let _ = front.get(0);
    Ok(front)
}

impl Rows {
    /// What a pair does not fit by, if it doesn't.
    pub(crate) fn misfit(&self, key: &Cell<'_>, value: &Cell<'_>) -> Option<Misfit>
        requires { IsLong self.now }
        ensures misfit { (line : ℕ) → option_map refusal_of result ≡ misfit (rows_pairs self.now) (record { key = seen key.now; value = seen value.now; line = line }) }
        ensures key { IfNone result (0 < length self.now.lines.items → class_of_cell (seen key.now) ≡ self.now.keys.class) }
        ensures value { IfNone result (0 < length self.now.lines.items → class_of_cell (seen value.now) ≡ self.now.values.class) }
    {
        let rows = self.lines.len();
        let key_fits = key_fits(&self.keys, rows, key);
        let value_fits = fits(&self.values, rows, value);
        judged(key_fits, value_fits, rows + 1 < LIMIT)
    }

    /// The number of pairs.
    pub(crate) fn len(&self) -> usize
        requires { IsLong self.now }
        ensures lines { result ≡ length self.now.lines.items }
        ensures pairs { result ≡ length (rows_pairs self.now) }
    {
        self.lines.len()
    }

    /// A pair and its line, counted from 0.
    pub(crate) fn pair(&self, i: usize) -> (Cell<'_>, Cell<'_>, u32)
        requires long { IsLong self.now }
        requires within { i < length self.now.lines.items }
        ensures pair { slice_get (rows_pairs self.now) i ≡ Some (record { key = seen result.0; value = seen result.1; line = result.2 }) }
        ensures key { class_of_cell (seen result.0) ≡ self.now.keys.class }
        ensures value { class_of_cell (seen result.1) ≡ self.now.values.class }
    {
        (self.keys.get(i), self.values.get(i), self.lines[i])
    }

    /// The pairs of another store fit, or the fault of the first that doesn't.
    pub(crate) fn fit(&self, later: &Rows) -> Result<(), PairFault>
        requires kept { IsKept self.now }
        requires later_kept { IsKept later.now }
        ensures fit { OnOk result (AllFit (rows_pairs self.now) (rows_pairs later.now)) }
        ensures store { OnOk result (IsStore (rows_pairs self.now ++ rows_pairs later.now)) }
        ensures fault { IfErr result (λ fault. IsFaultOf (appended (rows_pairs self.now) (rows_pairs later.now)).stop fault) }
        ensures key { OnOk result (0 < length self.now.lines.items → 0 < length later.now.lines.items → later.now.keys.class ≡ self.now.keys.class) }
        ensures value { OnOk result (0 < length self.now.lines.items → 0 < length later.now.lines.items → later.now.values.class ≡ self.now.values.class) }
    {
        if later.len() == 0 {
            return Ok(());
        }
        let (key, value, line) = later.pair(0);
        if let Some(misfit) = self.misfit(&key, &value) {
            return Err(misfit.at(line));
        }
        let room = LIMIT - 1 - self.len();
        if later.len() <= room {
            return Ok(());
        }
        let (_, _, line) = later.pair(room);
        Err(Misfit::Number.at(line))
    }

    /// The keys and the values as columns; without a pair they are doubles.
    pub(crate) fn into_columns(self, alloc: Global) -> Result<(Column, Column), AllocError>
        requires { IsLong self }
        ensures keys { IfOk result (λ c. c.0 ≡ column_of_cells (map pair_key (rows_pairs self))) }
        ensures values { IfOk result (λ c. c.1 ≡ column_of_cells (map pair_value (rows_pairs self))) }
    {
        let rows = self.lines.len();
        let keys = front(alloc, self.keys, rows)?;
        let values = front(alloc, self.values, rows)?;
        Ok((keys, values))
    }

    #[tactic(auto, using(crate::proofs::StoreLemmas::same_fronts, crate::proofs::StoreLemmas::of_more))]
    /// Adds a pair that fits; refused for want of memory alone, with the pairs as they were.
    pub(crate) fn add(
        &mut self,
        alloc: Global,
        line: u32,
        key: &Cell<'_>,
        value: &Cell<'_>,
    ) -> Result<(), AllocError>
        requires long { IsLong self.old }
        requires key { 0 < length self.old.lines.items → class_of_cell (seen key.now) ≡ self.old.keys.class }
        requires value { 0 < length self.old.lines.items → class_of_cell (seen value.now) ≡ self.old.values.class }
        ensures long { IsLong self.new }
        ensures added { OnOk result (rows_pairs self.new ≡ rows_pairs self.old ++ record { key = seen key.now; value = seen value.now; line = line } ∷ []) }
        ensures kept { OnErr result (rows_pairs self.new ≡ rows_pairs self.old) }
    {
        let rows = self.lines.len();
        add_cell(alloc, &mut self.keys, rows, key)?;
        add_cell(alloc, &mut self.values, rows, value)?;
        self.lines.push(line)?;
        Ok(())
    }

    #[tactic(auto, using(crate::proofs::StoreLemmas::same_fronts, crate::proofs::StoreLemmas::of_more))]
    /// Adds the pairs of another store, which fit; refused for want of memory alone, with the pairs as they were.
    pub(crate) fn append(&mut self, later: Rows) -> Result<(), AllocError>
        requires long { IsLong self.old }
        requires later_long { IsLong later }
        requires key { 0 < length self.old.lines.items → 0 < length later.lines.items → later.keys.class ≡ self.old.keys.class }
        requires value { 0 < length self.old.lines.items → 0 < length later.lines.items → later.values.class ≡ self.old.values.class }
        ensures long { IsLong self.new }
        ensures added { OnOk result (rows_pairs self.new ≡ rows_pairs self.old ++ rows_pairs later) }
        ensures kept { OnErr result (rows_pairs self.new ≡ rows_pairs self.old) }
    {
        if later.lines.len() == 0 {
            return Ok(());
        }
        let rows = self.lines.len();
        add_cells(&mut self.keys, rows, later.keys)?;
        add_cells(&mut self.values, rows, later.values)?;
        self.lines.extend_from_slice(later.lines.as_slice())
    }
}
