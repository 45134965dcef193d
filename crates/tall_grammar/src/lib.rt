//! Scripts: what they are made of, and which bytes are one.
#![tactic(auto)]

pub mod expressions;
pub mod faults;
mod laws;
pub mod scripts;
pub mod steps;

pub use expressions::{Arg, Expr, Infix, Node, Prefix};
pub use laws::{each_text_has_one_answer, the_reader_tells_the_answer, the_verdict_is_the_answer};
pub use scripts::{Form, Function, ParseFault, Script, Statement};
pub use steps::{Arm, FunctionStep};
