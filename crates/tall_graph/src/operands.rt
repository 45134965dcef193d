//! Operands of an operation, and the space of what is made of them, by their nodes.
ghost use Rattle.tall_graph.specs.Places.{IsListed};

use crate::keys::SpaceKey;
use crate::operations::{GraphFault, NodeId};
use tall_value::{Class, Method};

/// The operands of an operation; none takes more than two.
#[derive(Clone, Copy)]
pub(crate) enum Operands {
    Nothing,
    One(NodeId),
    Two(NodeId, NodeId),
}

/// The space of a node that is to be made.
#[derive(Clone, Copy)]
pub(crate) enum NewSpace {
    /// The space of an operand.
    Of(NodeId),
    Single,
    RowsOf(u32),
    Kept {
        column: NodeId,
        mask: NodeId,
    },
    First {
        k: u64,
        column: NodeId,
    },
    Last {
        k: u64,
        column: NodeId,
    },
    Distinct(NodeId),
    Groups {
        method: Method,
        key: NodeId,
        column: Option<NodeId>,
    },
}

/// The class and the space of a node that is to be made.
#[derive(Clone, Copy)]
pub(crate) struct Placed {
    pub(crate) class: Class,
    pub(crate) space: NewSpace,
}

/// The number of a node's space: that of an operand's space, or what the table of spaces tells by a key.
#[derive(Clone, Copy)]
pub(crate) enum SpaceNumber {
    Known(usize),
    New(SpaceKey),
}

/// The operands that stand in a list of nodes; more than two are refused.
pub(crate) fn listed(args: &[NodeId]) -> Result<Operands, GraphFault>
    ensures { IsListed args.now result }
{
    match args {
        [] => Ok(Operands::Nothing),
        [x, behind @ ..] => match behind {
            [] => Ok(Operands::One(*x)),
            [y, rest @ ..] => match rest {
                [] => Ok(Operands::Two(*x, *y)),
                [_, ..] => Err(GraphFault::BadArgument),
            },
        },
    }
}
