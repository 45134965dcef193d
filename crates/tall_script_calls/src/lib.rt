//! The functions of a script that work on datastores: `tabularTextDatastore`, `tall`, `readall`, `gather` and `mapreduce`.
//!
//! Each gives what its word of the definitions gives, on arguments that have been evaluated.
#![tactic(auto)]

mod datastores;
mod faults;
mod gathers;
mod reducing;
mod tables;

pub use datastores::make_datastore;
pub use gathers::{gather_all, gather_one};
pub use reducing::map_reduce;
pub use tables::{read_all, tall_table};
