//! Datastores of a script: their making from the arguments of a call, their properties, and their tall tables.
//!
//! Each function has the name of a word of tall_script's definitions, and gives what that word says of its arguments: the
//! value, or the refusal.
#![tactic(auto)]

mod laws;
mod opening;
mod options;
mod properties;
mod sources;
mod talls;
mod values;

pub use laws::{
    calls_of_datastores, datastores_are_kept, earlier_columns_are_stored, variables_may_be_added,
};
pub use opening::{OpenFault, open_datastore};
pub use options::options_given;
pub use properties::changed;
pub use sources::Sources;
pub use talls::tall_of;
