//! Distinct cells of a class with their places.
ghost use Rattle.std.specs.Prelude.{◌≡◌, ◌<◌, [], IfErr, IfOk, MatchResult, Some, length, slice_get, take};
ghost use Rattle.std.specs.List.{All};
ghost use Rattle.tall_value.specs.Cells.{seen};
ghost use Rattle.tall_value.specs.Classes.{kind_of};
ghost use Rattle.tall_value.specs.Columns.{HasKind};
ghost use Rattle.tall_dense.specs.Columns.{class_of_cell};
ghost use Rattle.tall_group.specs.Keys.{ArePlaced, AreSorted, Begins, IsPlaced};

use crate::keys::{Keys, PlacedKeys, no_keys};
use std::alloc::{AllocError, Global};
use std::marker::Model;
use tall_column::Column;
use tall_value::{Cell, Class};

/// Distinct cells of one class, in the order in which they first came.
#[derive(Drop)]
pub(crate) struct KeyTable {
    class: Class,
    keys: Keys,
    alloc: Global,
}

impl Model for KeyTable {
    ghost use Rattle.tall_dense.specs.Columns.{SeenColumn};

    ghost Value = { SeenColumn };

    ghost use Rattle.tall_value.specs.Classes.{kind_of};
    ghost use Rattle.tall_group.specs.Tables.{IsTable, table_shown};

    ghost view = { λ t. table_shown t.class t.keys };

    ghost invariant = { λ t. IsTable (kind_of t.class) t.keys };
}

impl KeyTable {
    /// No cells.
    pub(crate) fn new(alloc: Global, class: Class) -> KeyTable
        ensures { result ≡ record { class = class; cells = [] } }
    {
        KeyTable {
            class,
            keys: no_keys(alloc, class),
            alloc,
        }
    }

    /// The number of cells.
    pub(crate) fn len(&self) -> usize
        ensures { result ≡ length self.now.cells }
    {
        self.keys.len()
    }

    /// The class of the cells.
    pub(crate) fn class(&self) -> Class
        ensures { result ≡ self.now.class }
    {
        self.class
    }

    /// Keeps the first cells, so many.
    pub(crate) fn truncate(&mut self, len: usize)
        ensures class { self.new.class ≡ self.old.class }
        ensures cells { self.new.cells ≡ take len self.old.cells }
    {
        self.keys.truncate(len);
    }

    /// The allocator of the cells.
    pub(crate) fn alloc(&self) -> Global {
        self.alloc
    }

    /// The cell at a place.
    pub(crate) fn get(&self, place: usize) -> Cell<'_>
        requires { place < length self.now.cells }
        ensures cell { slice_get self.now.cells place ≡ Some (seen result) }
        ensures class { class_of_cell (seen result) ≡ self.now.class }
    {
        self.keys.get(self.class, place)
    }

    /// The place of a cell of the class, which is added where it isn't there.
    pub(crate) fn place(&mut self, cell: &Cell<'_>) -> Result<usize, AllocError>
        requires { class_of_cell (seen cell.now) ≡ self.old.class }
        ensures class { self.new.class ≡ self.old.class }
        ensures key { MatchResult result (λ p. IsPlaced self.old.cells self.new.cells (seen cell.now) p) (λ _. self.new.cells ≡ self.old.cells) }
    {
        self.keys.place(self.alloc, cell)
    }

    /// The cells in rising order, each with its place.
    pub(crate) fn sorted(self) -> Result<PlacedKeys, AllocError>
        ensures class { IfOk result (λ r. r.column.class ≡ self.class) }
        ensures sorted { IfOk result (λ r. AreSorted self.cells r.places.items r.column.cells) }
        ensures kinds { IfOk result (λ r. All (HasKind (kind_of self.class)) r.column.cells) }
    {
        self.keys.sorted(self.alloc, self.class)
    }

    #[tactic(auto, using(crate::proofs::PlacedLemmas::begins_still, crate::proofs::PlacedLemmas::begins_placed))]
    /// The places of the cells of a column of the class, which are added where they aren't there; refused for want of
    /// memory alone, after some of the cells.
    pub(crate) fn place_rows(&mut self, column: &Column) -> Result<Vec<usize>, AllocError>
        requires { column.now.class ≡ self.old.class }
        ensures class { self.new.class ≡ self.old.class }
        ensures refused { IfErr result (λ _. Begins self.old.cells self.new.cells) }
        ensures places { IfOk result (λ ps. ArePlaced self.old.cells self.new.cells column.now.cells ps.items) }
        ensures kinds { IfOk result (λ _. All (HasKind (kind_of column.now.class)) column.now.cells) }
    {
        let mut places = Vec::with_capacity(self.alloc, column.len())?;
        for row in 0..column.len() {
            let place = self.place(&column.get(row))?;
            places.push(place)?;
        }
        Ok(places)
    }

    #[tactic(auto, using(crate::proofs::PlacedLemmas::begins_still, crate::proofs::PlacedLemmas::begins_placed))]
    /// The places of the cells of another table of the class, which are added where they aren't there; refused for want
    /// of memory alone, after some of the cells.
    pub(crate) fn place_keys(&mut self, later: &KeyTable) -> Result<Vec<usize>, AllocError>
        requires { later.now.class ≡ self.old.class }
        ensures class { self.new.class ≡ self.old.class }
        ensures refused { IfErr result (λ _. Begins self.old.cells self.new.cells) }
        ensures places { IfOk result (λ ps. ArePlaced self.old.cells self.new.cells later.now.cells ps.items) }
    {
        let mut places = Vec::with_capacity(self.alloc, later.len())?;
        for row in 0..later.len() {
            let place = self.place(&later.get(row))?;
            places.push(place)?;
        }
        Ok(places)
    }
}
