//! What was put between two joins.
ghost use Rattle.std.specs.Prelude.{◌≡◌, ℕ, IsTrue, None, OnErr, OnOk, length, nat_eq, option_copied, option_map};
ghost use Rattle.std.specs.HashMap.{get};
ghost use Rattle.tall_value.specs.Cells.{seen};
ghost use Rattle.tall_dense.specs.Columns.{class_of_cell};
ghost use Rattle.tall_fuse.specs.Results.{with_carry, with_found};
ghost use Rattle.tall_fuse.specs.Kept.{carry_here, cell_of, found_here, found_of, put_at};

use std::alloc::{AllocError, Global};
use std::collections::HashMap;
use tall_column::Column;
use tall_value::{Cell, Class, Owned};

/// A column with the row numbers of its cells.
#[derive(Drop)]
pub(crate) struct Kept {
    pub column: Column,
    pub rows: Vec<u64>,
}

/// The cells that the blocks of a scan go on from. Those that came block after block, from block 0 on, stand in a column.
#[derive(Drop)]
pub(crate) struct Carries {
    cells: Column,
    others: HashMap<u64, Owned>,
}

impl Carries {
    fn new(alloc: Global, class: Class) -> Carries
        ensures { (b : ℕ) → cell_of result b ≡ None }
    {
        Carries {
            cells: Column::new(alloc, class),
            others: HashMap::new(alloc),
        }
    }

    fn get(&self, block: u64) -> Option<Cell<'_>>
        ensures { option_map seen result ≡ cell_of self.now block }
    {
        if let Some(other) = self.others.get(&block) {
            return Some(other.cell());
        }
        if block < self.cells.len() as u64 {
            return Some(self.cells.get(block as usize));
        }
        None
    }

    /// Is it the next block's, and of the column's class?
    fn is_next(&self, block: u64, cell: &Cell<'_>) -> bool
        ensures place { IsTrue result → block ≡ length self.now.cells.cells }
        ensures class { IsTrue result → class_of_cell (seen cell.now) ≡ self.now.cells.class }
        ensures free { IsTrue result → get nat_eq self.now.others block ≡ None }
    {
        block == self.cells.len() as u64
            && cell.class() == self.cells.class()
            && !self.others.contains_key(&block)
    }

    fn put(&mut self, alloc: Global, block: u64, cell: &Cell<'_>) -> Result<(), AllocError>
        ensures put { OnOk result ((b : ℕ) → cell_of self.new b ≡ put_at (cell_of self.old) block (seen cell.now) b) }
        ensures refused { OnErr result ((b : ℕ) → cell_of self.new b ≡ cell_of self.old b) }
    {
        if self.is_next(block, cell) {
            return self.cells.push(cell);
        }
        let kept = Owned::of(alloc, cell)?;
        self.others.insert(block, kept)?;
        Ok(())
    }
}

/// Results and carries by the places of their nodes.
#[derive(Drop)]
pub(crate) struct Part {
    results: HashMap<usize, Kept>,
    carries: HashMap<usize, Carries>,
}

impl Part {
    pub(crate) fn new(alloc: Global) -> Part
        ensures found { (j : ℕ) → found_here result j ≡ None }
        ensures carry { (j b : ℕ) → carry_here result j b ≡ None }
    {
        Part {
            results: HashMap::new(alloc),
            carries: HashMap::new(alloc),
        }
    }

    pub(crate) fn result(&self, node: usize) -> Option<&Kept>
        ensures { option_map found_of (option_copied result) ≡ found_here self.now node }
    {
        self.results.get(&node)
    }

    pub(crate) fn carry(&self, node: usize, block: u64) -> Option<Cell<'_>>
        ensures { option_map seen result ≡ carry_here self.now node block }
    {
        match self.carries.get(&node) {
            Some(carries) => carries.get(block),
            None => None,
        }
    }

    pub(crate) fn put(&mut self, node: usize, kept: Kept) -> Result<(), AllocError>
        ensures put { OnOk result ((j : ℕ) → found_here self.new j ≡ with_found (found_here self.old) node (found_of kept) j) }
        ensures carries { (j b : ℕ) → carry_here self.new j b ≡ carry_here self.old j b }
        ensures refused { OnErr result ((j : ℕ) → found_here self.new j ≡ found_here self.old j) }
    {
        self.results.insert(node, kept)?;
        Ok(())
    }

    pub(crate) fn put_carry(
        &mut self,
        alloc: Global,
        node: usize,
        block: u64,
        cell: &Cell<'_>,
    ) -> Result<(), AllocError>
        ensures put { OnOk result ((j b : ℕ) → carry_here self.new j b ≡ with_carry (carry_here self.old) node block (seen cell.now) j b) }
        ensures found { (j : ℕ) → found_here self.new j ≡ found_here self.old j }
        ensures refused { OnErr result ((j b : ℕ) → carry_here self.new j b ≡ carry_here self.old j b) }
    {
        if let Some(carries) = self.carries.get_mut(&node) {
            return carries.put(alloc, block, cell);
        }
        let mut carries = Carries::new(alloc, cell.class());
        carries.put(alloc, block, cell)?;
        self.carries.insert(node, carries)?;
        Ok(())
    }
}
