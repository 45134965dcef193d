//! Why an operator on doubles refuses.

/// A result that is no double of the language.
#[derive(Clone, Copy, Debug, PartialEq, Eq)]
pub enum WholeFault {
    /// The magnitude is above 2^53, or a number other than zero was divided by zero.
    Inexact,
    /// The quotient is no whole number.
    NotWhole,
}
