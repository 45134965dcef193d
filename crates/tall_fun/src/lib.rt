//! Calls of the map and reduce functions of a script: their statements, in order, on values in memory.
#![tactic(auto)]

mod applications;
mod bounds;
mod calls;
mod conditions;
mod failures;
mod faults;
mod frame;
mod functions;
mod loops;
mod names;
mod plain;
mod run;
mod scope;
mod statements;
mod turns;
mod values;

pub use calls::{call_map, call_reduce};
pub use faults::{FunFault, FunKind};
