//! Datastores' files in blocks, as the blocks that a pass over the values of deferred expressions goes over.
//!
//! No code stands here: it joins the definitions of datastores and those of values over blocks for the crates above.
#![tactic(auto)]

pub mod laws;
