//! The graph of deferred values: each node is an operation over earlier nodes, with its class, its space, its form and the
//! passes that must be done before it. No data are read here.
#![tactic(auto)]

mod adding;
mod classes;
mod drafts;
mod graph;
mod hashes;
mod keys;
mod laws;
mod nodes;
mod numbering;
mod operands;
mod operations;
mod placing;
mod tables;

pub use graph::Graph;
pub use laws::a_later_operation_may_be_added;
pub use operations::{GraphFault, NodeId, NodeOp, Space};
