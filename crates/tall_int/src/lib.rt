//! Integer classes, whole doubles and their arithmetic.
//!
//! An integer class is a range of whole numbers: results are exact, then rounded, then moved to the nearest number of
//! the class (MathWorks, Integers). A double is NaN or a whole number of magnitude at most 2^53, and a result that is
//! neither is refused.
#![tactic(auto)]

mod class;
mod faults;
mod laws;
mod operators;
mod quotients;
#[cfg(test)]
mod tests;
mod twos;
mod wholes;

pub use class::{IntClass, clamp};
pub use faults::WholeFault;
pub use laws::{bits_are_twos_complement, quotients_are_rounded};
pub use operators::{
    Arith, abs, div_round, idivide, mixed, modulo, neg, sat_add, sat_mul, sat_sub,
};
pub use quotients::Rounding;
pub use twos::{bit_and, bit_or, bit_xor};
pub use wholes::Whole;
