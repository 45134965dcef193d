//! The columns of datastores' files as the values of deferred expressions, as definitions with their laws.
//!
//! No code stands here: it joins the definitions of datastores and those of tall values for the crates above.
#![tactic(auto)]

pub mod laws;
