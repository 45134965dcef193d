//! Operators, indexes and functions over values in memory, once for map and reduce functions and for the statements of a script.
//!
//! Each function has the name of a word of tall_local's definitions, and gives what that word says of its operands: the value,
//! or the refusal. Operands are lent, so no function takes a value away.
#![tactic(auto)]

mod applications;
mod arguments;
mod ends;
mod faults;
mod functions;
mod indexing;
mod operators;
mod values;

pub use applications::{Application, Operation, application_of};
pub use ends::memory_end;
pub use faults::{MemoryFault, refused_class};
pub use functions::value_function_named;
pub use indexing::{Index, add_variable, constant_named, memory_index, memory_member};
pub use operators::{
    binary_of, column_answer, memory_binary, memory_infix, memory_prefix, memory_unary,
    scalars_fit, unary_of,
};
pub use values::{MemoryRef, MemoryValue};

#[cfg(test)]
mod tests;
