//! An expression under evaluation.
use std::alloc::Global;
use tall_environment::Environment;
use tall_grammar::Function;

/// An expression under evaluation: what the script has, its functions, and the shelf.
#[derive(Drop)]
pub struct Evaluation<'e, S> {
    pub(crate) alloc: Global,
    pub(crate) shelf: &'e mut S,
    pub(crate) environment: &'e mut Environment,
    pub(crate) functions: &'e [Function],
}
