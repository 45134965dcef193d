//! The evaluation of expressions, once for the statements of a script and for those of its functions.
//!
//! What names, operators and indexes mean is told by a `Language`, and what calls do by a closure; their answers are those of a
//! language of the definitions. `evaluate` walks an expression, and gives what the definitions give: the value or the stop, and
//! in both cases the state that is left.
#![tactic(auto)]

mod languages;
mod walk;

pub use languages::{Argument, Language, Place};
pub use walk::{evaluate, evaluate_arguments};
