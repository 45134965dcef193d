//! Nodes: what makes a value, and what is kept beside it.

use crate::keys::Forms;
use crate::operands::SpaceNumber;
use crate::operations::{NodeId, NodeOp};
use tall_value::Class;

/// What is kept of a node's shape. Forms and spaces are numbers: the place of the first node that has an equal one.
#[derive(Clone, Copy)]
pub(crate) struct Facts {
    pub(crate) class: Class,
    /// How many passes over datastores must be done before a pass that computes the value.
    pub(crate) chain: u64,
    pub(crate) is_single: bool,
    /// The datastore whose rows the value has.
    pub(crate) rows: Option<u32>,
    /// The datastore that a pass goes over for the value: that of its rows or of an operand's.
    pub(crate) store: Option<u32>,
    pub(crate) form: usize,
    pub(crate) space: usize,
}

#[derive(Drop)]
pub(crate) struct Node {
    pub(crate) number: u32,
    pub(crate) line: u32,
    pub(crate) op: NodeOp,
    pub(crate) args: Vec<NodeId>,
    pub(crate) facts: Facts,
}

/// A node that is accepted, before it has a form and a place.
#[derive(Drop)]
pub(crate) struct Draft {
    pub(crate) number: u32,
    pub(crate) line: u32,
    pub(crate) op: NodeOp,
    pub(crate) args: Vec<NodeId>,
    pub(crate) class: Class,
    pub(crate) chain: u64,
    pub(crate) is_single: bool,
    pub(crate) rows: Option<u32>,
    pub(crate) store: Option<u32>,
    pub(crate) operands: Forms,
    pub(crate) space: SpaceNumber,
}
