//! What is there of a block: the variables of its datastore, and the columns that were computed of nodes.
ghost use Rattle.std.specs.Prelude.{◌≡◌, ◌==◌, ◌<◌, if◌then◌else◌, nat_eq, OnOk, Some, length, option_copied, option_map, ℕ};
ghost use Rattle.std.specs.HashMap.{get};
ghost use Rattle.tall_value.specs.Cells.{seen};
ghost use Rattle.tall_block.specs.OfBlocks.{column_at, known_scalar as scalar_in, variable_at};

use std::alloc::AllocError;
use std::collections::HashMap;
use tall_column::{Column, Table};
use tall_fuse::Known;
use tall_graph::{Graph, NodeId, NodeOp};
use tall_value::{Cell, Class};

/// A variable's column, by its place among the selected ones; None where it has another class.
fn variable_of(table: &Table, variable: u64, class: Class) -> Option<&Column>
    ensures { option_copied result ≡ variable_at table.now variable class }
{
    if variable < table.width() as u64 {
        let column = table.at(variable as usize);
        if column.class() == class {
            return Some(column);
        }
    }
    None
}

/// The column that is there of a node: the variable's, or the one that was computed.
pub fn column<'a>(
    graph: &Graph,
    table: &'a Table,
    made: &'a HashMap<usize, Column>,
    n: NodeId,
) -> Option<&'a Column>
    requires { n < length graph.now }
    ensures { option_copied result ≡ column_at graph.now table.now made.now n }
{
    match graph.op_of(n) {
        NodeOp::Stored {
            variable,
            class,
            ..
        } => variable_of(table, *variable, *class),
        _ => made.get(&n.place()),
    }
}

/// The scalar that is known of a node.
pub(crate) fn known_scalar(known: &Known, n: NodeId) -> Option<Cell<'_>>
    ensures { option_map seen result ≡ scalar_in known.now n }
{
    match known.result(n) {
        Some(column) if column.len() > 0 => Some(column.get(0)),
        _ => None,
    }
}
