//! The parser of scripts.
#![tactic(auto)]

mod depth;
mod function_steps;
mod functions;
mod parser;
mod places;
mod statements;
mod step_nodes;

pub use parser::parse;
pub use tall_grammar::{
    Arg, Arm, Expr, Form, Function, FunctionStep, Infix, Node, ParseFault, Prefix, Script,
    Statement,
};
