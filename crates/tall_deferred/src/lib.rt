//! Values of a script, tall or in memory: operators, indexes and functions over them.
//!
//! Each function has the name of a word of tall_script's definitions, and gives what that word says of its operands: the value,
//! or the refusal. Operations on values in memory are computed at once; an operation over a tall value is a node more of the
//! graph.
#![tactic(auto)]

mod faults;
mod functions;
mod groups;
mod indexes;
mod laws;
mod members;
mod nodes;
mod operators;
mod rows;
mod values;

pub use faults::ValueFault;
pub use functions::function_value;
pub use indexes::index_value;
pub use laws::{expressions_leave_lower_numbers, numbers_in_turn_are_in_order, values_stay};
pub use members::member_value;
pub use operators::{infix_value, prefix_value};
pub use values::{At, ScriptIndex, ScriptRef, ScriptValue, Variable, add_variable};
