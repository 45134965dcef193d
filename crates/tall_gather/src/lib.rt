//! Gathers: the passes of all levels, and what stands in no pass, for the values of some nodes or their least fault.
#![tactic(auto)]

mod answers;
mod below;
mod calls;
mod candidate;
mod ends;
mod faults;
mod filters;
mod gathers;
mod heights;
mod levels;
mod operands;
mod operators;
mod passes;
mod rest;
mod roots;
mod scans;
mod small;

pub use faults::GatherFault;
pub use gathers::gather;
