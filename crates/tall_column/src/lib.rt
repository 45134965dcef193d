//! Columns of cells, tables of columns, and the operators over rows.
//!
//! A column has a class and a list of cells of this class, which tall_dense keeps. An operator over the rows of columns
//! goes to a loop over the values where there is one for the operator and the classes, and else from cell to cell.
#![tactic(auto)]

mod beside;
mod binaries;
mod column;
mod counted;
mod rows;
mod scalars;
mod table;
mod unaries;

pub use column::Column;
pub use rows::{map_binary, map_scalar, map_unary};
pub use table::{Table, Value};
pub use tall_dense::{Integer, OpFault, Operand, Stored, Texts, Values};

#[cfg(test)]
mod tests;
