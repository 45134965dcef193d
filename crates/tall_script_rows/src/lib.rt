//! Scripts and map and reduce functions whose runs were worked out by hand, computed by the definitions. Nothing stands on
//! this crate.
#![tactic(auto)]

pub mod laws;
