//! What is known between passes.
ghost use Rattle.std.specs.Prelude.{◌≡◌, ℕ, None, OnErr, OnOk, option_copied, option_map};
ghost use Rattle.tall_value.specs.Cells.{seen};
ghost use Rattle.tall_fuse.specs.Results.{or_else, with_carry, with_found};
ghost use Rattle.tall_fuse.specs.Kept.{carry, carry_here, found, found_here, found_of, last_in};

use crate::parts::{Kept, Part};
use std::alloc::{AllocError, Global};
use std::mem;
use tall_column::Column;
use tall_graph::NodeId;
use tall_value::Cell;

/// The results of nodes that are known, and the carries of scans: for each block the fold of the rows before it. Contracts
/// see what stands at each node, and at each node and block. It keeps its allocator.
#[derive(Drop)]
pub struct Known {
    current: Part,
    earlier: Vec<Part>,
    alloc: Global,
}

/// The last part's result of a node.
#[tactic(auto, using(crate::proofs::LastParts::or_else_assoc, crate::proofs::LastParts::or_else_none))]
fn last_result(earlier: &[Part], node: usize) -> Option<&Kept>
    ensures { option_map found_of (option_copied result) ≡ last_in (λ p. found_here p node) earlier.now }
{
    let mut last = None;
    for part in earlier {
        if let Some(kept) = part.result(node) {
            last = Some(kept);
        }
    }
    last
}

/// The last part's carry of a node and a block.
#[tactic(auto, using(crate::proofs::LastParts::or_else_assoc, crate::proofs::LastParts::or_else_none))]
fn last_carry(earlier: &[Part], node: usize, block: u64) -> Option<Cell<'_>>
    ensures { option_map seen result ≡ last_in (λ p. carry_here p node block) earlier.now }
{
    let mut last = None;
    for part in earlier {
        if let Some(cell) = part.carry(node, block) {
            last = Some(cell);
        }
    }
    last
}

impl Known {
    /// Nothing is known.
    pub fn new(alloc: Global) -> Known
        ensures found { (j : ℕ) → found result j ≡ None }
        ensures carry { (j b : ℕ) → carry result j b ≡ None }
    {
        Known {
            current: Part::new(alloc),
            earlier: Vec::new(alloc),
            alloc,
        }
    }

    fn kept(&self, node: usize) -> Option<&Kept>
        ensures { option_map found_of (option_copied result) ≡ found self.now node }
    {
        match self.current.result(node) {
            Some(kept) => Some(kept),
            None => last_result(self.earlier.as_slice(), node),
        }
    }

    /// The result of a node; None exactly where none was put.
    pub fn result(&self, node: NodeId) -> Option<&Column>
        ensures { option_copied result ≡ option_map (λ r. r.column) (found self.now node) }
    {
        match self.kept(node.place()) {
            Some(kept) => Some(&kept.column),
            None => None,
        }
    }

    /// The row numbers of the cells of a node's result, none for a scalar or a collected column; None exactly where
    /// `result` is.
    pub fn rows(&self, node: NodeId) -> Option<&[u64]>
        ensures { option_map (λ s. s.now) result ≡ option_map (λ r. r.rows) (found self.now node) }
    {
        match self.kept(node.place()) {
            Some(kept) => Some(kept.rows.as_slice()),
            None => None,
        }
    }

    /// What a block of a scan goes on from; None exactly where no carry was put for the node and the block.
    pub fn carry(&self, node: NodeId, block: u64) -> Option<Cell<'_>>
        ensures { option_map seen result ≡ carry self.now node block }
    {
        match self.current.carry(node.place(), block) {
            Some(cell) => Some(cell),
            None => last_carry(self.earlier.as_slice(), node.place(), block),
        }
    }

    /// Puts a result in the place of an earlier one of the node; all else stays. Refused for want of memory alone, with
    /// what was known.
    pub fn put(&mut self, node: NodeId, column: Column, rows: Vec<u64>) -> Result<(), AllocError>
        ensures put { OnOk result ((j : ℕ) → found self.new j ≡ with_found (found self.old) node (record { column = column; rows = rows.items }) j) }
        ensures carries { (j b : ℕ) → carry self.new j b ≡ carry self.old j b }
        ensures refused { OnErr result ((j : ℕ) → found self.new j ≡ found self.old j) }
    {
        self.current.put(node.place(), Kept { column, rows })
    }

    /// Puts what a block of a scan goes on from, in the place of an earlier one; all else stays. Refused for want of
    /// memory alone, with what was known.
    pub fn put_carry(&mut self, node: NodeId, block: u64, cell: &Cell<'_>) -> Result<(), AllocError>
        ensures put { OnOk result ((j b : ℕ) → carry self.new j b ≡ with_carry (carry self.old) node block (seen cell.now) j b) }
        ensures found { (j : ℕ) → found self.new j ≡ found self.old j }
        ensures refused { OnErr result ((j b : ℕ) → carry self.new j b ≡ carry self.old j b) }
    {
        self.current
            .put_carry(self.alloc, node.place(), block, cell)
    }

    /// Adds what `later` has, which stands where both have something; all else stays. Refused for want of memory alone, with
    /// what was known. Nothing is copied.
    pub fn join(&mut self, later: Known) -> Result<(), AllocError>
        ensures found { OnOk result ((j : ℕ) → found self.new j ≡ or_else (found later j) (found self.old j)) }
        ensures carry { OnOk result ((j b : ℕ) → carry self.new j b ≡ or_else (carry later j b) (carry self.old j b)) }
        ensures refused_found { OnErr result ((j : ℕ) → found self.new j ≡ found self.old j) }
        ensures refused_carry { OnErr result ((j b : ℕ) → carry self.new j b ≡ carry self.old j b) }
    {
        let Known {
            current,
            mut earlier,
            ..
        } = later;
        self.earlier.reserve(earlier.len() + 1)?;
        let before = mem::replace(&mut self.current, current);
        self.earlier.push_reserved(before);
        self.earlier.append(&mut earlier)
    }
}
