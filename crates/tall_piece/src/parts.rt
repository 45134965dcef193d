//! What a block gives for a node that is wanted, and what the blocks so far give.
ghost use Rattle.std.specs.Prelude.{◌≡◌, ◌<◌, ℕ, IfOk, List, None, Option, Some, [], length, slice_get};
ghost use Rattle.tall_value.specs.Cells.{Seen, seen};
ghost use Rattle.tall_dense.specs.Columns.{class_of_cell, with_cell};
ghost use Rattle.tall_semantics.specs.Deferred.{Vertex};
ghost use Rattle.tall_piece.specs.Joins.{CanJoin, IsJoined, IsWithCarry};
ghost use Rattle.tall_piece.specs.Wants.{FitsSum, IsOfWay, IsSumOfBlocks, SomeNext};

use crate::wanted::{Wanted, Way};
use std::alloc::{AllocError, Global};
use tall_column::Column;
use tall_fold::Carry;
use tall_graph::Graph;
use tall_part::{EndPart, NextCarry};
use tall_value::Cell;

/// What a block's rows give for a node.
#[derive(Drop)]
pub enum Part {
    /// For a value at the end.
    End(EndPart),
    /// For the carries of a scan.
    Carry(Carry),
    /// The rows themselves.
    Rows(Column),
}

/// What the rows of the blocks so far give for a node.
#[derive(Drop)]
pub enum Sum {
    /// For a value at the end.
    End(EndPart),
    /// For a scan what the next block goes on from, and the carries of the blocks so far, up to the first that is missing.
    Carries { next: NextCarry, cells: Column },
    /// The rows themselves.
    Rows(Column),
}

impl Sum {
    /// Before the first block.
    pub fn new(alloc: Global, graph: &Graph, wanted: &Wanted) -> Sum
        requires node { wanted.now.node < length graph.now }
        requires way { IsOfWay graph.now wanted.now.node wanted.now.way }
        ensures fits { FitsSum graph.now 0 wanted.now result }
        ensures none { (given : ℕ → Option Seen) → IsSumOfBlocks graph.now given (λ i. []) wanted.now result }
    {
        match wanted.way {
            Way::End {
                operation,
                first,
                last,
            } => Sum::End(EndPart::new(
                alloc,
                operation,
                graph.class_of(first),
                graph.class_of(last),
            )),
            Way::Carries { scan, operand } => Sum::Carries {
                next: NextCarry::new(alloc, scan, graph.class_of(operand)),
                cells: Column::new(alloc, graph.class_of(wanted.node)),
            },
            Way::Rows => Sum::Rows(Column::new(alloc, graph.class_of(wanted.node))),
        }
    }
}

/// With a block's part for a value at the end.
#[tactic(auto, using(crate::proofs::JoinLaws::end_joined, crate::proofs::JoinLaws::end_parts))]
fn join_end(so_far: EndPart, later: EndPart) -> Result<Sum, AllocError>
    requires { CanJoin (Sum.End so_far) (Some (Part.End later)) }
    ensures { IfOk result (λ s. IsJoined (Sum.End so_far) (Some (Part.End later)) s) }
{
    let mut sum = so_far;
    sum.join(later)?;
    Ok(Sum::End(sum))
}

/// With a block's column.
#[tactic(auto, using(crate::proofs::JoinLaws::rows_joined, crate::proofs::JoinLaws::one_class))]
fn join_rows(so_far: Column, later: &Column) -> Result<Sum, AllocError>
    requires { CanJoin (Sum.Rows so_far) (Some (Part.Rows later.now)) }
    ensures { IfOk result (λ s. IsJoined (Sum.Rows so_far) (Some (Part.Rows later.now)) s) }
{
    let mut sum = so_far;
    sum.concat(later)?;
    Ok(Sum::Rows(sum))
}

/// A column with one cell more.
fn with_cell(column: Column, cell: &Cell<'_>) -> Result<Column, AllocError>
    requires { class_of_cell (seen cell.now) ≡ column.class }
    ensures { IfOk result (λ c. c ≡ with_cell column (seen cell.now)) }
{
    let mut longer = column;
    longer.push(cell)?;
    Ok(longer)
}

/// The carries so far and that of the next block, where it is there.
#[tactic(auto, using(crate::proofs::JoinLaws::carry_cell_class, crate::proofs::JoinLaws::one_with_carry, crate::proofs::JoinLaws::none_with_carry))]
fn with_carry(next: &NextCarry, cells: Column) -> Result<Column, AllocError>
    requires { (vs : List Vertex) × (n : ℕ) × (i : ℕ) × (y : Way) × SomeNext vs n i y next.now cells }
    ensures { IfOk result (λ c. IsWithCarry next.now cells c) }
{
    match next.cell() {
        Some(cell) => with_cell(cells, &cell),
        None => Ok(cells),
    }
}

/// With a block's part for the carries of a scan.
#[tactic(auto, using(crate::proofs::JoinLaws::carry_parts, crate::proofs::JoinLaws::some_next, crate::proofs::JoinLaws::carry_joined))]
fn join_carry(next: NextCarry, cells: Column, block: Carry) -> Result<Sum, AllocError>
    requires { CanJoin (Sum.Carries next cells) (Some (Part.Carry block)) }
    ensures { IfOk result (λ s. IsJoined (Sum.Carries next cells) (Some (Part.Carry block)) s) }
{
    let cells = with_carry(&next, cells)?;
    let mut next = next;
    next.join(block);
    Ok(Sum::Carries { next, cells })
}

/// Without a part for the carries of a scan.
#[tactic(auto, using(crate::proofs::JoinLaws::some_next, crate::proofs::JoinLaws::carry_stays))]
fn leave_carry(next: NextCarry, cells: Column) -> Result<Sum, AllocError>
    requires { CanJoin (Sum.Carries next cells) None }
    ensures { IfOk result (λ s. IsJoined (Sum.Carries next cells) None s) }
{
    let cells = with_carry(&next, cells)?;
    Ok(Sum::Carries { next, cells })
}

/// With a block's part, where it is there, for a value at the end.
#[tactic(auto, using(crate::proofs::JoinLaws::end_stays))]
fn go_on_end(so_far: EndPart, part: Option<Part>) -> Result<Sum, AllocError>
    requires { CanJoin (Sum.End so_far) part }
    ensures { IfOk result (λ s. IsJoined (Sum.End so_far) part s) }
{
    match part {
        None => Ok(Sum::End(so_far)),
        Some(part) => {
            let Part::End(later) = part else {
                unreachable!()
            };
            join_end(so_far, later)
        }
    }
}

/// The same, for the carries of a scan.
fn go_on_carries(next: NextCarry, cells: Column, part: Option<Part>) -> Result<Sum, AllocError>
    requires { CanJoin (Sum.Carries next cells) part }
    ensures { IfOk result (λ s. IsJoined (Sum.Carries next cells) part s) }
{
    match part {
        None => leave_carry(next, cells),
        Some(part) => {
            let Part::Carry(block) = part else {
                unreachable!()
            };
            join_carry(next, cells, block)
        }
    }
}

/// The same, for a column.
#[tactic(auto, using(crate::proofs::JoinLaws::rows_stay))]
fn go_on_rows(so_far: Column, part: Option<Part>) -> Result<Sum, AllocError>
    requires { CanJoin (Sum.Rows so_far) part }
    ensures { IfOk result (λ s. IsJoined (Sum.Rows so_far) part s) }
{
    match part {
        None => Ok(Sum::Rows(so_far)),
        Some(part) => {
            let Part::Rows(later) = part else {
                unreachable!()
            };
            join_rows(so_far, &later)
        }
    }
}

impl Sum {
    /// With the part of the next block, or without one where the block has none. Refused for want of memory alone.
    pub fn join(self, part: Option<Part>) -> Result<Sum, AllocError>
        requires { CanJoin self part }
        ensures { IfOk result (λ s. IsJoined self part s) }
    {
        match self {
            Sum::End(so_far) => go_on_end(so_far, part),
            Sum::Carries { next, cells } => go_on_carries(next, cells, part),
            Sum::Rows(so_far) => go_on_rows(so_far, part),
        }
    }
}
