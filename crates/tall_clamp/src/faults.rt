//! Why a reduction has no result.

/// A reduction without a result.
#[derive(Clone, Copy, Debug, PartialEq, Eq)]
pub enum FinishFault {
    /// The sum of doubles is above 2^53 in magnitude.
    Inexact,
    /// No number was met.
    NoRows,
    /// Memory was wanting.
    Memory,
}
