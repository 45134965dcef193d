//! What an end comes to.
use tall_column::Column;
use tall_value::Fault;

/// A column, with the numbers of its rows; a scalar has one cell and no number.
#[derive(Drop)]
pub struct EndColumn {
    pub column: Column,
    pub rows: Vec<u64>,
}

/// Why there is no result.
#[derive(Clone, Copy)]
pub enum EndFault {
    /// The fault of the expression.
    Data(Fault),
    /// Memory was wanting.
    Memory,
}
