//! Operators on the values of columns, one row at a time, as the loops of tall_dense take them.
//!
//! Each operator is a type, so that each loop is compiled for one operator and one class. What an operator gives at a row
//! is a cell of the definitions, or the fault of the row (docs/LANGUAGE.md, operators).
#![tactic(auto)]

pub mod comparisons;
pub mod doubles;
pub mod integers;
pub mod logicals;
