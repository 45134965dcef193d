//! The rules of expressions in code: a cursor over the tokens of a script, and what each rule reads from it.
#![tactic(auto)]

pub mod cursor;
pub mod flagged;
pub mod grammar;
mod kept;
mod nodes;
mod operators;
mod prefixes;
mod text_lists;
mod values;

pub use cursor::Cursor;
