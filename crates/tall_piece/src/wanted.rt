//! What is wanted of a pass.

use tall_graph::NodeId;
use tall_part::EndOperation;
use tall_value::Scan;

/// In which way a node's value is told by the blocks of a pass.
#[derive(Clone, Copy)]
pub enum Way {
    /// At the end, from all rows of its operands; where there is one operand, it is the first and the last.
    End {
        operation: EndOperation,
        first: NodeId,
        last: NodeId,
    },
    /// The carries of a scan, from the rows of its operand.
    Carries {
        scan: Scan,
        operand: NodeId,
    },
    /// Its own column.
    Rows,
}

/// A node of a pass's work with a result.
#[derive(Clone, Copy)]
pub struct Wanted {
    /// The node.
    pub node: NodeId,
    /// In which way its value is told.
    pub way: Way,
}
