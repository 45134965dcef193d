//! Number fields: exact reading, and exact values in the integer classes and as whole doubles.
//!
//! What a field spells is NaN, a signed infinity, or a decimal: a sign, a whole number and an exponent of ten, without
//! bounds (docs/LANGUAGE.md, number fields). `read_field` accepts just the fields that spell something; `to_class` rounds
//! and then takes the nearest number of the class (MathWorks, Integers); `to_whole` refuses what is no double of the
//! language. All take time linear in the field, no memory and no floating point.
#![tactic(auto)]

mod decimal;
mod field;
mod laws;
mod read;
mod size;
#[cfg(test)]
mod tests;
mod text;

pub use field::{Field, NotNumber, read_field, to_class, to_whole};
pub use laws::fields_follow_the_grammar;
pub use text::trim_blanks;
