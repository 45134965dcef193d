//! Tables, and the values of a script.
ghost use Rattle.std.specs.Prelude.{◌≡◌, ◌<◌, ◌++◌, [], ◌∷◌, MatchResult, None, Some, length, option_copied, option_map, slice_get};
ghost use Rattle.tall_column.specs.Tables.{FitsHeight, IsTable, column_named, height_of};

use crate::column::Column;
use std::alloc::Global;
use std::marker::Model;
use tall_value::{Name, Owned};

/// A table: distinct names with columns of one height, in order, which contracts see as a list of pairs. It keeps its
/// allocator.
#[derive(Drop)]
pub struct Table {
    columns: Vec<(Name, Column)>,
    alloc: Global,
}

impl Model for Table {
    ghost use Rattle.std.specs.Prelude.{List, ℕ};
    ghost use Rattle.tall_dense.specs.Columns.{SeenColumn};

    ghost Value = { List (List ℕ × SeenColumn) };

    ghost use Rattle.tall_column.specs.Tables.{IsTable};

    ghost view = { λ t. t.columns.items };

    ghost invariant = { λ t. IsTable t.columns.items };
}

/// The column of a name.
fn find<'a>(columns: &'a [(Name, Column)], name: &str) -> Option<&'a Column>
    ensures { option_copied result ≡ column_named name.now columns.now }
{
    for (i, entry) in columns.iter().enumerate() {
        if entry.0.as_str() == name {
            return Some(&columns[i].1);
        }
    }
    None
}

/// The height of the first column, or 0.
fn first_height(columns: &[(Name, Column)]) -> usize
    ensures { result ≡ height_of columns.now }
{
    match columns {
        [] => 0,
        [first, ..] => first.1.len(),
    }
}

impl Table {
    /// A table of no columns.
    pub fn new(alloc: Global) -> Table
        ensures { result ≡ [] }
    {
        Table {
            columns: Vec::new(alloc),
            alloc,
        }
    }

    /// Adds a column of a new name and, unless the table is empty, of the same height; handed back for want of memory
    /// alone, with the table as it was.
    pub fn add(&mut self, name: &str, column: Column) -> Result<(), Column>
        requires new_name { column_named name.now self.old ≡ None }
        requires same_height { FitsHeight (length column.cells) self.old }
        ensures { MatchResult result (λ _. self.new ≡ self.old ++ (name.now, column) ∷ []) (λ c. (c ≡ column) × (self.new ≡ self.old)) }
    {
        let kept = match Name::of(self.alloc, name) {
            Ok(kept) => kept,
            Err(_) => return Err(column),
        };
        match self.columns.push((kept, column)) {
            Ok(()) => Ok(()),
            Err(refused) => Err(refused.value.1),
        }
    }

    /// The column of a name; None exactly where no column has it.
    pub fn column(&self, name: &str) -> Option<&Column>
        ensures { option_copied result ≡ column_named name.now self.now }
    {
        find(self.columns.as_slice(), name)
    }

    /// The number of columns.
    pub fn width(&self) -> usize
        ensures width { result ≡ length self.now }
        ensures table { IsTable self.now }
    {
        self.columns.as_slice().len()
    }

    /// The number of rows of each column; 0 in a table of no columns.
    pub fn height(&self) -> usize
        ensures height { result ≡ height_of self.now }
        ensures table { IsTable self.now }
    {
        first_height(self.columns.as_slice())
    }

    /// The name of a column, counted from 0.
    pub fn name(&self, i: usize) -> &str
        requires { i < length self.now }
        ensures { option_map (λ e. e.0) (slice_get self.now i) ≡ Some result.now }
    {
        let entry = &self.columns.as_slice()[i];
        entry.0.as_str()
    }

    /// A column, counted from 0.
    pub fn at(&self, i: usize) -> &Column
        requires { i < length self.now }
        ensures { option_map (λ e. e.1) (slice_get self.now i) ≡ Some result.now }
    {
        let entry = &self.columns.as_slice()[i];
        &entry.1
    }
}

/// A value of a script that is kept.
#[derive(Drop)]
pub enum Value {
    Scalar(Owned),
    Column(Column),
    Table(Table),
}
