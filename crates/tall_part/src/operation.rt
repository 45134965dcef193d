//! Operations that need all rows of their operands.
ghost use Rattle.std.specs.Prelude.{◌≡◌, ◌≤◌, min, false, IfNone, IfSome};
ghost use Rattle.tall_semantics.specs.Operations.{operation};
ghost use Rattle.tall_graph.specs.Vertices.{made_of};
ghost use Rattle.tall_part.specs.Operations.{IsColumn, is_end, number_of, op_of};
ghost use Rattle.tall_part.specs.Parts.{kept_from, kept_to};

use tall_graph::NodeOp;
use tall_value::{Method, Reduction};

/// An operation whose value is there at the end of a pass alone; docs/LANGUAGE.md, functions.
#[derive(Clone, Copy)]
pub enum EndOperation {
    /// A function of all rows that gives one cell.
    Reduce(Reduction),
    /// The first rows, so many or all.
    Head(u64),
    /// The last rows, so many or all.
    Tail(u64),
    /// The distinct cells.
    Distinct,
    /// The columns of `groupsummary`: the keys, the counts and, but for `Count`, the values of the method.
    Group(Method),
}

impl EndOperation {
    #[tactic(auto, using(crate::proofs::OperationLaws::column_again, crate::proofs::OperationLaws::a_column))]
    /// The operation of a node; None exactly where it is a scan, or has its rows one by one.
    pub fn of(op: &NodeOp) -> Option<EndOperation>
        ensures some { IfSome result (λ e. made_of op.now ≡ operation (op_of e (number_of op.now))) }
        ensures column { IfSome result (λ e. IsColumn e (number_of op.now)) }
        ensures none { IfNone result (is_end (made_of op.now) ≡ false) }
    {
        match op {
            NodeOp::Reduce(reduction) => Some(EndOperation::Reduce(*reduction)),
            NodeOp::Head(k) => Some(EndOperation::Head(*k)),
            NodeOp::Tail(k) => Some(EndOperation::Tail(*k)),
            NodeOp::Distinct => Some(EndOperation::Distinct),
            NodeOp::Group { method, .. } => Some(EndOperation::Group(*method)),
            NodeOp::Stored { .. } => None,
            NodeOp::Constant(_) => None,
            NodeOp::Unary(_) => None,
            NodeOp::Binary(_) => None,
            NodeOp::Filter => None,
            NodeOp::Scan(_) => None,
        }
    }
}

impl EndOperation {
    /// Which of so many rows of a block are kept with their numbers: those from the first place to before the second.
    pub fn kept_rows(self, rows: usize) -> (usize, usize)
        ensures from { result.0 ≡ kept_from self rows }
        ensures to { result.1 ≡ kept_to self rows }
        ensures ordered { result.0 ≤ result.1 }
        ensures within { result.1 ≤ rows }
    {
        match self {
            EndOperation::Head(k) => (0, first_rows(k, rows)),
            EndOperation::Tail(k) => (rows - first_rows(k, rows), rows),
            EndOperation::Reduce(_) => (0, 0),
            EndOperation::Distinct => (0, 0),
            EndOperation::Group(_) => (0, 0),
        }
    }
}

/// So many of the rows, or all.
fn first_rows(k: u64, rows: usize) -> usize
    ensures { result ≡ min k rows }
{
    if k < rows as u64 { k as usize } else { rows }
}

/// Which of the operation's columns a node is: 0 but for the later columns of `groupsummary`.
pub fn column_number(op: &NodeOp) -> usize
    ensures { result ≡ number_of op.now }
{
    match op {
        NodeOp::Group { part: 0, .. } => 0,
        NodeOp::Group { part: 1, .. } => 1,
        NodeOp::Group { .. } => 2,
        _ => 0,
    }
}
