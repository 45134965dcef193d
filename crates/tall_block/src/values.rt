//! The value of a node over a block, from what is there.
ghost use Rattle.std.specs.Prelude.{◌≡◌, ◌<◌, ◌≤◌, ◌∷◌, [], ℕ, Bool, IfNone, IfSome, List, None, Option, Some, length, slice_get, true};
ghost use Rattle.tall_value.specs.Cells.{Seen, seen};
ghost use Rattle.tall_dense.specs.Columns.{class_of_cell};
ghost use Rattle.tall_semantics.specs.Deferred.{Vertex};
ghost use Rattle.tall_semantics.specs.Faults.{At};
ghost use Rattle.tall_semantics.specs.Operations.{binary, filter, scan, unary};
ghost use Rattle.tall_semantics.specs.Outcomes.{Outcome};
ghost use Rattle.tall_semantics.specs.ShapesInOrder.{shape_at};
ghost use Rattle.tall_semantics.specs.Spaces.{is_single};
ghost use Rattle.tall_semantics.specs.Talls.{Columns, Tall};
ghost use Rattle.tall_fuse.specs.Kept.{carry};
ghost use Rattle.tall_column.specs.Tables.{height_of};
ghost use Rattle.tall_block.specs.OfBlocks.{AreColumns, AreShort, IsOperation, column_at, known_scalar as scalar_in, vertex_over};
ghost use Rattle.tall_block.specs.NodeForms.{IfMade, IsLed, IsOperationAt, IsReady, IsValueOf, TellsOf};

use crate::columns::{column, known_scalar};
use crate::forms::{Form, form_of};
use crate::nodes::{
    binary_value, filter_value, scalar_left_value, scalar_right_value, scan_value, unary_value,
};
use std::alloc::{AllocError, Global};
use std::collections::HashMap;
use tall_column::{Column, OpFault, Table};
use tall_fuse::Known;
use tall_graph::{Graph, NodeId};
use tall_value::{Binary, Cell, CellFault, Scan, Unary};

/// What the value of a node comes to over a block.
#[derive(Drop)]
pub(crate) enum Value {
    /// It stands in the block's table.
    Stored,
    Made(Column),
    /// There is none at a row, counted from 0 in the column of an operand.
    Failed {
        lead: NodeId,
        row: usize,
        fault: CellFault,
    },
    /// What it is computed from isn't there.
    Missing,
}

/// The answer of an operator whose first operand with rows is `lead`.
fn value_from(answer: Result<Column, OpFault>, lead: NodeId) -> Result<Value, AllocError>
    ensures { IsValueOf answer lead result }
{
    match answer {
        Ok(column) => Ok(Value::Made(column)),
        Err(OpFault::At { row, fault }) => Ok(Value::Failed { lead, row, fault }),
        Err(OpFault::Memory) => Err(AllocError),
    }
}

/// The value of an operator of one operand.
fn unary_at(
    alloc: Global,
    graph: &Graph,
    table: &Table,
    made: &HashMap<usize, Column>,
    n: NodeId,
    op: Unary,
    a: NodeId,
) -> Result<Value, AllocError>
    requires place { a < length graph.now }
    requires node { IsOperation graph.now n (unary op) (a ∷ []) }
    requires columns { AreColumns graph.now table.now made.now }
    requires heights { AreShort graph.now table.now made.now }
    ensures class { IfMade result (λ c. c.class ≡ (shape_at graph.now n).class) }
    ensures height { IfMade result (λ c. length c.cells ≤ height_of table.now) }
    ensures led { IsLed graph.now table.now made.now n result }
    ensures tells { (scalars carries : ℕ → Option Seen) (first : ℕ) (work : List ℕ) (columns : Columns) (so_far : ℕ → List Seen) (f : ℕ → Tall) (cut : ℕ → Bool) (h : ℕ → Outcome)
        → IsReady graph.now table.now made.now scalars carries first work columns so_far f cut h n → (at : At) → slice_get graph.now n ≡ Some (vertex_over at (unary op) (a ∷ [])) → TellsOf graph.now table.now made.now at h n result }
{
    match column(graph, table, made, a) {
        Some(x) => value_from(unary_value(alloc, graph, n, op, a, x), a),
        None => Ok(Value::Missing),
    }
}

/// The scalar that is known of a node, where the node is a scalar and the cell has its class.
fn scalar_at<'a>(graph: &Graph, known: &'a Known, s: NodeId) -> Option<Cell<'a>>
    requires { s < length graph.now }
    ensures some { IfSome result (λ c. (scalar_in known.now s ≡ Some (seen c)) × (class_of_cell (seen c) ≡ (shape_at graph.now s).class) × (is_single (shape_at graph.now s).space ≡ true)) }
    ensures none { IfNone result ((c : Seen) → scalar_in known.now s ≡ Some c → class_of_cell c ≡ (shape_at graph.now s).class → is_single (shape_at graph.now s).space ≡ true → ⊥) }
{
    if !graph.is_scalar(s) {
        return None;
    }
    match known_scalar(known, s) {
        Some(cell) => {
            if cell.class() == graph.class_of(s) {
                Some(cell)
            } else {
                None
            }
        }
        None => None,
    }
}

/// What the block of a scan goes on from, where it is known and the cell has the class of the scan.
fn carry_at<'a>(graph: &Graph, known: &'a Known, block: u64, n: NodeId) -> Option<Cell<'a>>
    requires { n < length graph.now }
    ensures some { IfSome result (λ c. (carry known.now n block ≡ Some (seen c)) × (class_of_cell (seen c) ≡ (shape_at graph.now n).class)) }
    ensures none { IfNone result ((c : Seen) → carry known.now n block ≡ Some c → class_of_cell c ≡ (shape_at graph.now n).class → ⊥) }
{
    match known.carry(n, block) {
        Some(cell) => {
            if cell.class() == graph.class_of(n) {
                Some(cell)
            } else {
                None
            }
        }
        None => None,
    }
}

/// The value of an operator of two operands, whose left one has the column x.
fn left_at(
    alloc: Global,
    graph: &Graph,
    known: &Known,
    table: &Table,
    made: &HashMap<usize, Column>,
    n: NodeId,
    op: Binary,
    a: NodeId,
    b: NodeId,
    x: &Column,
) -> Result<Value, AllocError>
    requires right_place { b < length graph.now }
    requires node { IsOperation graph.now n (binary op) (a ∷ b ∷ []) }
    requires columns { AreColumns graph.now table.now made.now }
    requires heights { AreShort graph.now table.now made.now }
    requires left { column_at graph.now table.now made.now a ≡ Some x.now }
    ensures class { IfMade result (λ c. c.class ≡ (shape_at graph.now n).class) }
    ensures height { IfMade result (λ c. length c.cells ≤ height_of table.now) }
    ensures led { IsLed graph.now table.now made.now n result }
    ensures tells { (carries : ℕ → Option Seen) (first : ℕ) (work : List ℕ) (columns : Columns) (so_far : ℕ → List Seen) (f : ℕ → Tall) (cut : ℕ → Bool) (h : ℕ → Outcome)
        → IsReady graph.now table.now made.now (scalar_in known.now) carries first work columns so_far f cut h n → (at : At) → slice_get graph.now n ≡ Some (vertex_over at (binary op) (a ∷ b ∷ [])) → TellsOf graph.now table.now made.now at h n result }
{
    match column(graph, table, made, b) {
        Some(y) => value_from(binary_value(alloc, graph, n, op, a, b, x, y), a),
        None => match scalar_at(graph, known, b) {
            Some(cell) => value_from(scalar_right_value(alloc, graph, n, op, a, b, x, &cell), a),
            None => Ok(Value::Missing),
        },
    }
}

/// The value of an operator of two operands, whose left one has no column.
fn right_at(
    alloc: Global,
    graph: &Graph,
    known: &Known,
    table: &Table,
    made: &HashMap<usize, Column>,
    n: NodeId,
    op: Binary,
    a: NodeId,
    b: NodeId,
) -> Result<Value, AllocError>
    requires left_place { a < length graph.now }
    requires right_place { b < length graph.now }
    requires node { IsOperation graph.now n (binary op) (a ∷ b ∷ []) }
    requires columns { AreColumns graph.now table.now made.now }
    requires heights { AreShort graph.now table.now made.now }
    requires left { column_at graph.now table.now made.now a ≡ None }
    ensures class { IfMade result (λ c. c.class ≡ (shape_at graph.now n).class) }
    ensures height { IfMade result (λ c. length c.cells ≤ height_of table.now) }
    ensures led { IsLed graph.now table.now made.now n result }
    ensures tells { (carries : ℕ → Option Seen) (first : ℕ) (work : List ℕ) (columns : Columns) (so_far : ℕ → List Seen) (f : ℕ → Tall) (cut : ℕ → Bool) (h : ℕ → Outcome)
        → IsReady graph.now table.now made.now (scalar_in known.now) carries first work columns so_far f cut h n → (at : At) → slice_get graph.now n ≡ Some (vertex_over at (binary op) (a ∷ b ∷ [])) → TellsOf graph.now table.now made.now at h n result }
{
    match column(graph, table, made, b) {
        Some(y) => match scalar_at(graph, known, a) {
            Some(cell) => value_from(scalar_left_value(alloc, graph, n, op, b, a, y, &cell), b),
            None => Ok(Value::Missing),
        },
        None => Ok(Value::Missing),
    }
}

/// The value of an operator of two operands, columns or a column and a known scalar.
fn binary_at(
    alloc: Global,
    graph: &Graph,
    known: &Known,
    table: &Table,
    made: &HashMap<usize, Column>,
    n: NodeId,
    op: Binary,
    a: NodeId,
    b: NodeId,
) -> Result<Value, AllocError>
    requires left_place { a < length graph.now }
    requires right_place { b < length graph.now }
    requires node { IsOperation graph.now n (binary op) (a ∷ b ∷ []) }
    requires columns { AreColumns graph.now table.now made.now }
    requires heights { AreShort graph.now table.now made.now }
    ensures class { IfMade result (λ c. c.class ≡ (shape_at graph.now n).class) }
    ensures height { IfMade result (λ c. length c.cells ≤ height_of table.now) }
    ensures led { IsLed graph.now table.now made.now n result }
    ensures tells { (carries : ℕ → Option Seen) (first : ℕ) (work : List ℕ) (columns : Columns) (so_far : ℕ → List Seen) (f : ℕ → Tall) (cut : ℕ → Bool) (h : ℕ → Outcome)
        → IsReady graph.now table.now made.now (scalar_in known.now) carries first work columns so_far f cut h n → (at : At) → slice_get graph.now n ≡ Some (vertex_over at (binary op) (a ∷ b ∷ [])) → TellsOf graph.now table.now made.now at h n result }
{
    match column(graph, table, made, a) {
        Some(x) => left_at(alloc, graph, known, table, made, n, op, a, b, x),
        None => right_at(alloc, graph, known, table, made, n, op, a, b),
    }
}

/// The rows of a column where a mask is true.
fn filter_at(
    graph: &Graph,
    table: &Table,
    made: &HashMap<usize, Column>,
    n: NodeId,
    a: NodeId,
    m: NodeId,
) -> Result<Value, AllocError>
    requires place { a < length graph.now }
    requires mask_place { m < length graph.now }
    requires node { IsOperation graph.now n filter (a ∷ m ∷ []) }
    requires columns { AreColumns graph.now table.now made.now }
    requires heights { AreShort graph.now table.now made.now }
    ensures class { IfMade result (λ c. c.class ≡ (shape_at graph.now n).class) }
    ensures height { IfMade result (λ c. length c.cells ≤ height_of table.now) }
    ensures led { IsLed graph.now table.now made.now n result }
    ensures tells { (scalars carries : ℕ → Option Seen) (first : ℕ) (work : List ℕ) (columns : Columns) (so_far : ℕ → List Seen) (f : ℕ → Tall) (cut : ℕ → Bool) (h : ℕ → Outcome)
        → IsReady graph.now table.now made.now scalars carries first work columns so_far f cut h n → (at : At) → slice_get graph.now n ≡ Some (vertex_over at filter (a ∷ m ∷ [])) → TellsOf graph.now table.now made.now at h n result }
{
    match column(graph, table, made, a) {
        Some(x) => match column(graph, table, made, m) {
            Some(mask) => Ok(Value::Made(filter_value(graph, n, a, m, x, mask)?)),
            None => Ok(Value::Missing),
        },
        None => Ok(Value::Missing),
    }
}

/// The scan of a column from the block's carry.
fn scan_at(
    alloc: Global,
    graph: &Graph,
    known: &Known,
    block: u64,
    table: &Table,
    made: &HashMap<usize, Column>,
    n: NodeId,
    s: Scan,
    a: NodeId,
) -> Result<Value, AllocError>
    requires place { n < length graph.now }
    requires operand_place { a < length graph.now }
    requires node { IsOperation graph.now n (scan s) (a ∷ []) }
    requires columns { AreColumns graph.now table.now made.now }
    requires heights { AreShort graph.now table.now made.now }
    ensures class { IfMade result (λ c. c.class ≡ (shape_at graph.now n).class) }
    ensures height { IfMade result (λ c. length c.cells ≤ height_of table.now) }
    ensures led { IsLed graph.now table.now made.now n result }
    ensures tells { (scalars : ℕ → Option Seen) (first : ℕ) (work : List ℕ) (columns : Columns) (so_far : ℕ → List Seen) (f : ℕ → Tall) (cut : ℕ → Bool) (h : ℕ → Outcome)
        → IsReady graph.now table.now made.now scalars (λ i. carry known.now i block) first work columns so_far f cut h n → (at : At) → slice_get graph.now n ≡ Some (vertex_over at (scan s) (a ∷ [])) → TellsOf graph.now table.now made.now at h n result }
{
    match column(graph, table, made, a) {
        Some(x) => match carry_at(graph, known, block, n) {
            Some(cell) => value_from(scan_value(alloc, graph, n, s, a, x, &cell), a),
            None => Ok(Value::Missing),
        },
        None => Ok(Value::Missing),
    }
}

/// The value of a node over a block, from the columns that are there and from what is known.
pub(crate) fn value_of(
    alloc: Global,
    graph: &Graph,
    known: &Known,
    block: u64,
    table: &Table,
    made: &HashMap<usize, Column>,
    n: NodeId,
) -> Result<Value, AllocError>
    requires place { n < length graph.now }
    requires columns { AreColumns graph.now table.now made.now }
    requires heights { AreShort graph.now table.now made.now }
    ensures class { IfMade result (λ c. c.class ≡ (shape_at graph.now n).class) }
    ensures height { IfMade result (λ c. length c.cells ≤ height_of table.now) }
    ensures led { IsLed graph.now table.now made.now n result }
    ensures operation { IfMade result (λ c. IsOperationAt graph.now n) }
    ensures tells { (first : ℕ) (work : List ℕ) (columns : Columns) (so_far : ℕ → List Seen) (f : ℕ → Tall) (cut : ℕ → Bool) (h : ℕ → Outcome)
        → IsReady graph.now table.now made.now (scalar_in known.now) (λ i. carry known.now i block) first work columns so_far f cut h n → (v : Vertex) → slice_get graph.now n ≡ Some v → TellsOf graph.now table.now made.now v.at h n result }
{
    graph.keeps_its_rules();
    match form_of(graph, n) {
        Form::Stored => Ok(Value::Stored),
        Form::Unary(op, a) => unary_at(alloc, graph, table, made, n, op, a),
        Form::Binary(op, a, b) => binary_at(alloc, graph, known, table, made, n, op, a, b),
        Form::Filter(a, m) => filter_at(graph, table, made, n, a, m),
        Form::Scan(s, a) => scan_at(alloc, graph, known, block, table, made, n, s, a),
        Form::Other => Ok(Value::Missing),
    }
}
