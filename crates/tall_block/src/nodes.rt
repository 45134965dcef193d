//! The value of a node over a block's rows, from columns and cells of its operands, told of the outcomes over the block of whatever
//! values the graph's equations have.
ghost use Rattle.std.specs.Prelude.{◌≡◌, ◌≤◌, ◌∷◌, [], false, true, IfOk, length, ℕ};
ghost use Rattle.tall_value.specs.Cells.{seen};
ghost use Rattle.tall_dense.specs.Columns.{class_of_cell};
ghost use Rattle.tall_semantics.specs.Operations.{binary, filter, scan, unary};
ghost use Rattle.tall_semantics.specs.Faults.{At};
ghost use Rattle.tall_semantics.specs.Outcomes.{Outcome, rows_in};
ghost use Rattle.tall_semantics.specs.ShapesInOrder.{shape_at};
ghost use Rattle.tall_semantics.specs.Spaces.{is_single};
ghost use Rattle.tall_block.specs.OfBlocks.{IsOperation, ShowsNode, TellsBeside, TellsNode};
ghost use Rattle.tall_block.specs.BlockWork.{GoesOn};
ghost use Rattle.tall_block.specs.Shown.{Shows, Tells};

use crate::rows::{binary_over, filter_over, scalar_over, unary_over};
use crate::scans::scan_over;
use std::alloc::{AllocError, Global};
use tall_column::{Column, OpFault};
use tall_graph::{Graph, NodeId};
use tall_value::{Binary, Cell, Scan, Unary};

/// The value of the node n, an operator of one operand, whose column is x.
///
/// # Errors
/// `At` with the first row, counted from 0, where the operator has no cell; `Memory` for want of memory alone.
pub(crate) fn unary_value(
    alloc: Global,
    graph: &Graph,
    n: NodeId,
    op: Unary,
    a: NodeId,
    x: &Column,
) -> Result<Column, OpFault>
    requires node { IsOperation graph.now n (unary op) (a ∷ []) }
    requires operand { x.now.class ≡ (shape_at graph.now a).class }
    ensures class { IfOk result (λ c. c.class ≡ (shape_at graph.now n).class) }
    ensures height { IfOk result (λ c. length c.cells ≤ length x.now.cells) }
    ensures rows { TellsNode graph.now n (unary op) (a ∷ []) ((a, x.now) ∷ []) a result }
{
    graph.keeps_its_rules();
    unary_over(alloc, op, x)
}

/// The value of the node n, an operator of two operands, whose columns are x and y.
///
/// # Errors
/// As `unary_value`.
pub(crate) fn binary_value(
    alloc: Global,
    graph: &Graph,
    n: NodeId,
    op: Binary,
    a: NodeId,
    b: NodeId,
    x: &Column,
    y: &Column,
) -> Result<Column, OpFault>
    requires node { IsOperation graph.now n (binary op) (a ∷ b ∷ []) }
    requires left_column { is_single (shape_at graph.now a).space ≡ false }
    requires right_column { is_single (shape_at graph.now b).space ≡ false }
    requires left { x.now.class ≡ (shape_at graph.now a).class }
    requires right { y.now.class ≡ (shape_at graph.now b).class }
    ensures class { IfOk result (λ c. c.class ≡ (shape_at graph.now n).class) }
    ensures height { IfOk result (λ c. length c.cells ≤ length x.now.cells) }
    ensures rows { TellsNode graph.now n (binary op) (a ∷ b ∷ []) ((a, x.now) ∷ (b, y.now) ∷ []) a result }
{
    graph.keeps_its_rules();
    binary_over(alloc, op, x, y)
}

/// The value of the node n, an operator of a node a, whose column is x, and on its right of a scalar.
///
/// # Errors
/// As `unary_value`.
pub(crate) fn scalar_right_value(
    alloc: Global,
    graph: &Graph,
    n: NodeId,
    op: Binary,
    a: NodeId,
    s: NodeId,
    x: &Column,
    cell: &Cell<'_>,
) -> Result<Column, OpFault>
    requires node { IsOperation graph.now n (binary op) (a ∷ s ∷ []) }
    requires column { is_single (shape_at graph.now a).space ≡ false }
    requires single { is_single (shape_at graph.now s).space ≡ true }
    requires cell_class { class_of_cell (seen cell.now) ≡ (shape_at graph.now s).class }
    requires operand { x.now.class ≡ (shape_at graph.now a).class }
    ensures class { IfOk result (λ c. c.class ≡ (shape_at graph.now n).class) }
    ensures height { IfOk result (λ c. length c.cells ≤ length x.now.cells) }
    ensures rows { TellsBeside graph.now n (binary op) (a ∷ s ∷ []) ((a, x.now) ∷ []) a s (seen cell.now) result }
{
    graph.keeps_its_rules();
    scalar_over(alloc, op, x, cell, false)
}

/// The value of the node n, an operator of a node a, whose column is x, and on its left of a scalar.
///
/// # Errors
/// As `unary_value`.
pub(crate) fn scalar_left_value(
    alloc: Global,
    graph: &Graph,
    n: NodeId,
    op: Binary,
    a: NodeId,
    s: NodeId,
    x: &Column,
    cell: &Cell<'_>,
) -> Result<Column, OpFault>
    requires node { IsOperation graph.now n (binary op) (s ∷ a ∷ []) }
    requires column { is_single (shape_at graph.now a).space ≡ false }
    requires single { is_single (shape_at graph.now s).space ≡ true }
    requires cell_class { class_of_cell (seen cell.now) ≡ (shape_at graph.now s).class }
    requires operand { x.now.class ≡ (shape_at graph.now a).class }
    ensures class { IfOk result (λ c. c.class ≡ (shape_at graph.now n).class) }
    ensures height { IfOk result (λ c. length c.cells ≤ length x.now.cells) }
    ensures rows { TellsBeside graph.now n (binary op) (s ∷ a ∷ []) ((a, x.now) ∷ []) a s (seen cell.now) result }
{
    graph.keeps_its_rules();
    scalar_over(alloc, op, x, cell, true)
}

/// The value of the node n, the rows of a column x where a mask is true. Refused for want of memory alone.
pub(crate) fn filter_value(
    graph: &Graph,
    n: NodeId,
    a: NodeId,
    m: NodeId,
    x: &Column,
    mask: &Column,
) -> Result<Column, AllocError>
    requires node { IsOperation graph.now n filter (a ∷ m ∷ []) }
    requires operand { x.now.class ≡ (shape_at graph.now a).class }
    requires mask_class { mask.now.class ≡ (shape_at graph.now m).class }
    ensures class { IfOk result (λ c. c.class ≡ (shape_at graph.now n).class) }
    ensures height { IfOk result (λ c. length c.cells ≤ length x.now.cells) }
    ensures rows { IfOk result (λ c. ShowsNode graph.now n filter (a ∷ m ∷ []) ((a, x.now) ∷ (m, mask.now) ∷ []) c) }
{
    graph.keeps_its_rules();
    filter_over(x, mask)
}

/// The value of the node n, the scan of a column x from the carry of the block.
///
/// # Errors
/// `At` with the first row, counted from 0, where the sum is above 2^53 in magnitude; `Memory` for want of memory alone, as which
/// 2^40 rows or more count.
pub(crate) fn scan_value(
    alloc: Global,
    graph: &Graph,
    n: NodeId,
    s: Scan,
    a: NodeId,
    x: &Column,
    cell: &Cell<'_>,
) -> Result<Column, OpFault>
    requires node { IsOperation graph.now n (scan s) (a ∷ []) }
    requires cell_class { class_of_cell (seen cell.now) ≡ (shape_at graph.now n).class }
    requires operand { x.now.class ≡ (shape_at graph.now a).class }
    ensures class { IfOk result (λ c. c.class ≡ (shape_at graph.now n).class) }
    ensures height { IfOk result (λ c. length c.cells ≤ length x.now.cells) }
    ensures rows { (h : ℕ → Outcome) (at : At) → GoesOn graph.now h n a at s (seen cell.now) → Shows (h a) x.now.cells → Tells at (rows_in (h a)) (h n) result }
{
    graph.keeps_its_rules();
    scan_over(alloc, s, x, cell)
}
