//! How a node's value is computed over a block.
ghost use Rattle.std.specs.Prelude.{◌≡◌, ◌<◌, IfSome, length, slice_get};
ghost use Rattle.tall_semantics.specs.Operations.{binary, filter, operation, scan, unary};
ghost use Rattle.tall_graph.specs.Vertices.{made_of};
ghost use Rattle.tall_block.specs.NodeForms.{IsFormOf};

use tall_graph::{Graph, NodeId, NodeOp};
use tall_value::{Binary, Scan, Unary};

/// What makes the value of a node, with its operands.
#[derive(Clone, Copy)]
pub(crate) enum Form {
    /// A variable of a datastore.
    Stored,
    Unary(Unary, NodeId),
    Binary(Binary, NodeId, NodeId),
    /// The rows of a column where a mask is true.
    Filter(NodeId, NodeId),
    Scan(Scan, NodeId),
    /// What isn't computed block by block.
    Other,
}

fn unary_form(op: Unary, args: &[NodeId]) -> Form
    ensures { IsFormOf (operation (unary op)) args.now result }
{
    match args {
        [] => Form::Other,
        [a, rest @ ..] => match rest {
            [] => Form::Unary(op, *a),
            [_, ..] => Form::Other,
        },
    }
}

fn scan_form(s: Scan, args: &[NodeId]) -> Form
    ensures { IsFormOf (operation (scan s)) args.now result }
{
    match args {
        [] => Form::Other,
        [a, rest @ ..] => match rest {
            [] => Form::Scan(s, *a),
            [_, ..] => Form::Other,
        },
    }
}

fn binary_form(op: Binary, args: &[NodeId]) -> Form
    ensures { IsFormOf (operation (binary op)) args.now result }
{
    match args {
        [] => Form::Other,
        [a, behind @ ..] => match behind {
            [] => Form::Other,
            [b, rest @ ..] => match rest {
                [] => Form::Binary(op, *a, *b),
                [_, ..] => Form::Other,
            },
        },
    }
}

fn filter_form(args: &[NodeId]) -> Form
    ensures { IsFormOf (operation filter) args.now result }
{
    match args {
        [] => Form::Other,
        [a, behind @ ..] => match behind {
            [] => Form::Other,
            [mask, rest @ ..] => match rest {
                [] => Form::Filter(*a, *mask),
                [_, ..] => Form::Other,
            },
        },
    }
}

/// What makes an operation's value, by the operation and its operands.
fn operation_form(op: &NodeOp, args: &[NodeId]) -> Form
    ensures { IsFormOf (made_of op.now) args.now result }
{
    match op {
        NodeOp::Stored { .. } => Form::Stored,
        NodeOp::Unary(op) => unary_form(*op, args),
        NodeOp::Binary(op) => binary_form(*op, args),
        NodeOp::Filter => filter_form(args),
        NodeOp::Scan(s) => scan_form(*s, args),
        NodeOp::Constant(_) => Form::Other,
        NodeOp::Reduce(_) => Form::Other,
        NodeOp::Head(_) => Form::Other,
        NodeOp::Tail(_) => Form::Other,
        NodeOp::Distinct => Form::Other,
        NodeOp::Group { .. } => Form::Other,
    }
}

/// What makes a node's value.
pub(crate) fn form_of(graph: &Graph, n: NodeId) -> Form
    requires { n < length graph.now }
    ensures { IfSome (slice_get graph.now n) (λ v. IsFormOf v.made v.args result) }
{
    operation_form(graph.op_of(n), graph.args_of(n))
}
