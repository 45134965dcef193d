//! The parts that a block gives, from the columns of its values.
ghost use Rattle.std.specs.Prelude.{◌≡◌, ◌<◌, ◌≤◌, ◌^◌, IfNone, IfOk, IfSome, IsOk, Some, length};
ghost use Rattle.tall_value.specs.FunctionClasses.{scan_class};
ghost use Rattle.tall_dense.specs.Columns.{SeenColumn};
ghost use Rattle.tall_block.specs.OfBlocks.{AreColumns, column_at};
ghost use Rattle.tall_part.specs.Operations.{IsTaken};
ghost use Rattle.tall_piece.specs.Joins.{FitsIfThere};
ghost use Rattle.tall_piece.specs.Wants.{IsOfWay, SomeCarry, class_at};
ghost use Rattle.tall_piece.specs.Worked.{IsMadeCarry, IsMadeColumn, IsMadeEnd, IsMadePart, IsSomeColumn, IsSomeEnd};

use crate::parts::Part;
use crate::wanted::{Wanted, Way};
use std::alloc::{AllocError, Global};
use std::collections::HashMap;
use tall_block::{column, row_numbers};
use tall_column::{Column, Table};
use tall_fold::Carry;
use tall_graph::{Graph, NodeId};
use tall_part::{EndOperation, EndPart, block_carry};
use tall_value::Scan;

/// The columns of a block's values: the variables of its datastore, the columns that were computed, the number of its
/// first row and how many records it has.
#[derive(Clone, Copy)]
pub struct BlockColumns<'a> {
    pub table: &'a Table,
    pub made: &'a HashMap<usize, Column>,
    pub first_row: u64,
    pub rows: u64,
}

/// The column of a node, where it is there and no longer than the block.
fn column_in<'a>(graph: &Graph, block: &BlockColumns<'a>, n: NodeId) -> Option<&'a Column>
    requires { n < length graph.now }
    ensures some { IfSome result (λ c. (column_at graph.now block.now.table.now block.now.made.now n ≡ Some c.now) × (length c.now.cells ≤ block.now.rows)) }
    ensures none { IfNone result ((c : SeenColumn) → column_at graph.now block.now.table.now block.now.made.now n ≡ Some c → block.now.rows < length c.cells) }
{
    match column(graph, block.table, block.made, n) {
        Some(column) if column.len() as u64 <= block.rows => Some(column),
        _ => None,
    }
}

/// For a value at the end.
fn end_part(
    alloc: Global,
    graph: &Graph,
    block: &BlockColumns<'_>,
    operation: EndOperation,
    first: NodeId,
    last: NodeId,
) -> Result<Option<EndPart>, AllocError>
    requires first { first < length graph.now }
    requires last { last < length graph.now }
    requires takes { IsTaken operation (class_at graph.now first) (class_at graph.now last) }
    requires columns { AreColumns graph.now block.now.table.now block.now.made.now }
    requires few { block.now.rows < 2 ^ 40 }
    ensures { IfOk result (λ o. (IsSomeEnd graph.now block.now.rows operation first last o) × (IsMadeEnd graph.now block.now.table.now block.now.made.now block.now.first_row block.now.rows operation first last o)) }
{
    let Some(keys) = column_in(graph, block, first) else {
        return Ok(None);
    };
    let Some(data) = column_in(graph, block, last) else {
        return Ok(None);
    };
    if keys.len() != data.len() {
        return Ok(None);
    }
    let (from, to) = operation.kept_rows(keys.len());
    let numbers = row_numbers(
        alloc,
        graph,
        block.table,
        block.first_row,
        block.made,
        first,
        from,
        to,
    )?;
    let part = EndPart::of_columns(alloc, operation, keys, data, numbers.as_slice())?;
    Ok(Some(part))
}

/// For the carries of a scan.
fn carry_part(graph: &Graph, block: &BlockColumns<'_>, scan: Scan, operand: NodeId) -> Option<Carry>
    requires place { operand < length graph.now }
    requires takes { IsOk (scan_class scan (class_at graph.now operand)) }
    requires columns { AreColumns graph.now block.now.table.now block.now.made.now }
    requires few { block.now.rows < 2 ^ 40 }
    ensures fits { IfSome result (λ c. SomeCarry graph.now block.now.rows (Way.Carries scan operand) c) }
    ensures made { IsMadeCarry graph.now block.now.table.now block.now.made.now block.now.first_row block.now.rows scan operand result }
{
    match column_in(graph, block, operand) {
        Some(column) => Some(block_carry(scan, column)),
        None => None,
    }
}

/// The rows themselves.
fn rows_part(
    graph: &Graph,
    block: &BlockColumns<'_>,
    node: NodeId,
) -> Result<Option<Column>, AllocError>
    requires place { node < length graph.now }
    requires columns { AreColumns graph.now block.now.table.now block.now.made.now }
    ensures { IfOk result (λ o. (IsSomeColumn graph.now block.now.rows node o) × (IsMadeColumn graph.now block.now.table.now block.now.made.now block.now.first_row block.now.rows node o)) }
{
    match column_in(graph, block, node) {
        Some(column) => Ok(Some(column.copy()?)),
        None => Ok(None),
    }
}

/// The part that a block gives for a node; none where columns are not there, or are of unequal lengths, which files that
/// change can give. Refused for want of memory alone.
pub fn block_part(
    alloc: Global,
    graph: &Graph,
    block: &BlockColumns<'_>,
    wanted: &Wanted,
) -> Result<Option<Part>, AllocError>
    requires node { wanted.now.node < length graph.now }
    requires way { IsOfWay graph.now wanted.now.node wanted.now.way }
    requires columns { AreColumns graph.now block.now.table.now block.now.made.now }
    requires few { block.now.rows < 2 ^ 40 }
    ensures fits { IfOk result (λ o. FitsIfThere graph.now block.now.rows wanted.now o) }
    ensures made { IfOk result (λ o. IsMadePart graph.now block.now.table.now block.now.made.now block.now.first_row block.now.rows wanted.now o) }
{
    match wanted.way {
        Way::End {
            operation,
            first,
            last,
        } => match end_part(alloc, graph, block, operation, first, last)? {
            Some(part) => Ok(Some(Part::End(part))),
            None => Ok(None),
        },
        Way::Carries { scan, operand } => match carry_part(graph, block, scan, operand) {
            Some(carry) => Ok(Some(Part::Carry(carry))),
            None => Ok(None),
        },
        Way::Rows => match rows_part(graph, block, wanted.node)? {
            Some(column) => Ok(Some(Part::Rows(column))),
            None => Ok(None),
        },
    }
}
