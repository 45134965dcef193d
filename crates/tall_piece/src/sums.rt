//! What the blocks so far of a pass give, together.
ghost use Rattle.std.specs.Prelude.{◌≡◌, ◌+◌, ◌<◌, ◌^◌, ℕ, suc, IfNone, IfOk, IfSome, List, None, Option, Some, [], ◌∷◌, length, option_map, slice_get};
ghost use Rattle.std.specs.Vec.Iter.{into_iter_items};
ghost use Rattle.tall_semantics.specs.Deferred.{Vertex};
ghost use Rattle.tall_semantics.specs.Faults.{fault_seen};
ghost use Rattle.tall_semantics.specs.ShapesInOrder.{IsMade};
ghost use Rattle.tall_semantics.specs.Outcomes.{Outcome};
ghost use Rattle.tall_piece.specs.Joins.{AllCanJoin, AreAllJoined, AreFirst, AreWays, part_first, parts_rest};
ghost use Rattle.tall_piece.specs.Passes.{PassOver, outcomes};
ghost use Rattle.tall_piece.specs.Pieces.{AreSums, CanGoOn, IsPiece, PartsFit, SumsFit};

use crate::faults::earlier;
use crate::parts::{Part, Sum};
use crate::wanted::Wanted;
use std::alloc::{AllocError, Global};
use std::vec::IntoIter;
use tall_graph::Graph;
use tall_value::Fault;

/// What a block of a pass gives.
#[derive(Drop)]
pub struct BlockParts {
    /// The least fault that was seen.
    pub fault: Option<Fault>,
    /// How many records the block has.
    pub rows: u64,
    /// The part for each node that is wanted; none where the block has none for it.
    pub parts: Vec<Option<Part>>,
}

/// What the blocks so far of a pass give.
#[derive(Drop)]
pub struct Sums {
    /// The least fault that was seen.
    pub fault: Option<Fault>,
    /// How many records the blocks have.
    pub rows: u64,
    /// The sum for each node that is wanted.
    pub sums: Vec<Sum>,
}

/// The sums before the first block.
fn no_sums(alloc: Global, graph: &Graph, wanted: &[Wanted]) -> Result<Vec<Sum>, AllocError>
    requires { AreWays graph.now wanted.now }
    ensures { IfOk result (λ v. AreFirst graph.now wanted.now v.items) }
{
    let mut sums = Vec::new(alloc);
    for w in wanted {
        sums.push(Sum::new(alloc, graph, w))?;
    }
    Ok(sums)
}

/// The next part, where there is one.
fn next_part(parts: &mut IntoIter<Option<Part>>) -> Option<Part>
    ensures part { result ≡ part_first (into_iter_items parts.old) }
    ensures rest { into_iter_items parts.new ≡ parts_rest (into_iter_items parts.old) }
{
    match parts.next() {
        Some(part) => part,
        None => None,
    }
}

/// The next sum, where there is one.
fn next_sum(sums: &mut IntoIter<Sum>) -> Option<Sum>
    ensures some { IfSome result (λ s. into_iter_items sums.old ≡ s ∷ into_iter_items sums.new) }
    ensures none { IfNone result (into_iter_items sums.old ≡ []) }
{
    sums.next()
}

/// Each sum with the part of its node.
fn join_all(alloc: Global, sums: Vec<Sum>, parts: Vec<Option<Part>>) -> Result<Vec<Sum>, AllocError>
    requires { AllCanJoin sums.items parts.items }
    ensures { IfOk result (λ v. AreAllJoined sums.items parts.items v.items) }
{
    let mut joined = Vec::with_capacity(alloc, sums.len())?;
    let mut sums = sums.into_iter();
    let mut parts = parts.into_iter();
    while let Some(sum) = next_sum(&mut sums) {
        let part = next_part(&mut parts);
        joined.push(sum.join(part)?)?;
    }
    Ok(joined)
}

impl Sums {
    /// Before the first block.
    pub fn new(alloc: Global, graph: &Graph, wanted: &[Wanted]) -> Result<Sums, AllocError>
        requires { AreWays graph.now wanted.now }
        ensures fit { IfOk result (λ s. (s.rows ≡ 0) × SumsFit graph.now 0 wanted.now s.sums.items) }
        ensures start { IfOk result (λ s. (store : ℕ) (all : List ℕ) (p : PassOver graph.now store all wanted.now) → AreSums p 0 s.rows (option_map fault_seen s.fault) s.sums.items) }
    {
        let sums = no_sums(alloc, graph, wanted)?;
        Ok(Sums {
            fault: None,
            rows: 0,
            sums,
        })
    }

    /// With the next block. Refused for want of memory alone.
    pub fn join(self, alloc: Global, block: BlockParts) -> Result<Sums, AllocError>
        requires { CanGoOn self.rows self.sums.items block.rows block.parts.items }
        ensures rows { IfOk result (λ s. s.rows ≡ self.rows + block.rows) }
        ensures fit { IfOk result (λ s. (vs : List Vertex) (ws : List Wanted) → SumsFit vs self.rows ws self.sums.items → PartsFit vs block.rows ws block.parts.items → SumsFit vs s.rows ws s.sums.items) }
        ensures step { IfOk result (λ s. (vs : List Vertex) (store : ℕ) (all : List ℕ) (wanted : List Wanted) (p : PassOver vs store all wanted) (k : ℕ) (h : ℕ → Outcome) → IsMade vs → slice_get (outcomes p) k ≡ Some h
            → AreSums p k self.rows (option_map fault_seen self.fault) self.sums.items → IsPiece p k h block.rows (option_map fault_seen block.fault) block.parts.items
            → AreSums p (suc k) s.rows (option_map fault_seen s.fault) s.sums.items) }
    {
        let sums = join_all(alloc, self.sums, block.parts)?;
        Ok(Sums {
            fault: earlier(self.fault, block.fault),
            rows: self.rows + block.rows,
            sums,
        })
    }
}
