//! The value of a node from what its operation answered.
ghost use Rattle.std.specs.Prelude.{◌≡◌, ◌∷◌, ◌<◌, ◌≤◌, ◌^◌, [], Err, IfOk, None, Some, false, length, slice_get, true};
ghost use Rattle.tall_value.specs.Cells.{seen};
ghost use Rattle.tall_value.specs.Reductions.{data_fault};
ghost use Rattle.tall_dense.specs.Columns.{class_of_cell};
ghost use Rattle.tall_semantics.specs.Deferred.{Vertex};
ghost use Rattle.tall_semantics.specs.Faults as semantics;
ghost use Rattle.tall_semantics.specs.Numbered.{number_at};
ghost use Rattle.tall_semantics.specs.Outcomes.{Outcome, alone, fault_of, scalar};
ghost use Rattle.tall_semantics.specs.RowsOfSpaces.{numbers_in};
ghost use Rattle.tall_semantics.specs.ShapesInOrder.{shape_at};
ghost use Rattle.tall_semantics.specs.Spaces.{is_single};
ghost use Rattle.tall_blocks.specs.Carries.{Rows};
ghost use Rattle.tall_block.specs.Shown.{Tells};
ghost use Rattle.tall_part.specs.Parts.{numbers as numbers_of_rows};
ghost use Rattle.tall_pass.specs.Fitting.{has_numbers};
ghost use Rattle.tall_gather.specs.Smalls.{FitsAnswer, TellsAnswer};

use std::alloc::{AllocError, Global};
use tall_column::{Column, OpFault};
use tall_graph::{Graph, NodeId};
use tall_part::{EndColumn, EndFault};
use tall_value::{Cell, CellFault, Class, Fault, FaultKind};

/// The fault of a node's expression.
fn fault_at(graph: &Graph, n: NodeId, row: Option<u64>, kind: FaultKind) -> Fault
    requires { n < length graph.now }
    ensures number { result.number ≡ number_at (slice_get graph.now n) }
    ensures seen { (v : Vertex) → slice_get graph.now n ≡ Some v → semantics.fault_seen result ≡ semantics.fault_at v.at row kind }
{
    Fault {
        number: graph.number_of(n),
        line: graph.line_of(n),
        row,
        kind,
    }
}

/// The value of a node whose rows are those of an operand, of which these are the numbers: where the operation gave fewer,
/// the first of them.
pub(crate) fn column_value(
    alloc: Global,
    graph: &Graph,
    n: NodeId,
    answer: Result<Column, OpFault>,
    numbers: &[u64],
) -> Result<EndColumn, EndFault>
    requires there { n < length graph.now }
    requires numbered { has_numbers (shape_at graph.now n).space ≡ true }
    requires class { IfOk answer (λ c. c.class ≡ (shape_at graph.now n).class) }
    requires height { IfOk answer (λ c. length c.cells ≤ length numbers.now) }
    requires few { length numbers.now < 2 ^ 40 }
    ensures fits { FitsAnswer graph.now n result }
    ensures told { (v : Vertex) (rs : Rows) (x : Outcome) → slice_get graph.now n ≡ Some v → numbers.now ≡ numbers_of_rows rs → (fault_of x ≡ None → numbers_in x ≡ numbers_of_rows rs) → Tells v.at rs x answer → TellsAnswer true x result }
{
    match answer {
        Ok(column) => {
            let Ok(rows) = Vec::from_slice(alloc, &numbers[..column.len()]) else {
                return Err(EndFault::Memory);
            };
            Ok(EndColumn { column, rows })
        }
        Err(OpFault::At { row, fault }) => {
            let number = numbers.get(row).copied();
            Err(EndFault::Data(fault_at(graph, n, number, fault.kind())))
        }
        Err(OpFault::Memory) => Err(EndFault::Memory),
    }
}

/// A column of one cell, whose row has no number.
fn one_cell(alloc: Global, class: Class, cell: &Cell<'_>) -> Result<EndColumn, AllocError>
    requires { class_of_cell (seen cell.now) ≡ class }
    ensures class { IfOk result (λ v. v.column.class ≡ class) }
    ensures cells { IfOk result (λ v. v.column.cells ≡ seen cell.now ∷ []) }
    ensures rows { IfOk result (λ v. v.rows.items ≡ []) }
{
    let mut column = Column::new(alloc, class);
    column.push(cell)?;
    Ok(EndColumn {
        column,
        rows: Vec::new(alloc),
    })
}

/// The value of a node that is a scalar.
pub(crate) fn single_value(
    alloc: Global,
    graph: &Graph,
    n: NodeId,
    cell: &Cell<'_>,
) -> Result<EndColumn, EndFault>
    requires there { n < length graph.now }
    requires single { is_single (shape_at graph.now n).space ≡ true }
    requires class { class_of_cell (seen cell.now) ≡ (shape_at graph.now n).class }
    ensures fits { FitsAnswer graph.now n result }
    ensures told { TellsAnswer false (scalar (seen cell.now)) result }
{
    match one_cell(alloc, graph.class_of(n), cell) {
        Ok(value) => Ok(value),
        Err(_) => Err(EndFault::Memory),
    }
}

/// The fault of a node over scalars, which has no row.
pub(crate) fn single_fault(
    graph: &Graph,
    n: NodeId,
    fault: CellFault,
) -> Result<EndColumn, EndFault>
    requires { n < length graph.now }
    ensures fits { FitsAnswer graph.now n result }
    ensures told { (v : Vertex) → slice_get graph.now n ≡ Some v → TellsAnswer false (alone v.at (Err (data_fault fault))) result }
{
    Err(EndFault::Data(fault_at(graph, n, None, fault.kind())))
}
