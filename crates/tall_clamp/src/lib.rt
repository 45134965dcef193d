//! Clamp functions, and folds of columns that can be cut into blocks and joined.
#![tactic(auto)]

mod blocks;
mod bounds;
mod clamps;
mod extremes;
mod faults;
mod folds;
mod join;
mod runs;
mod sums;
mod terms;
#[cfg(test)]
mod tests;
mod totals;
mod truths;
mod untyped;

pub use blocks::{fold_blocks, fold_rows, outcome};
pub use clamps::Clamp;
pub use extremes::{Choice, Extreme, Greatest, Larger, Least, Smaller};
pub use faults::FinishFault;
pub use folds::Fold;
pub use sums::ClampSum;
pub use terms::Term;
pub use totals::ExactSum;
pub use truths::{AllTrue, And, AnyTrue, Connective, Count, Or, Truth};
pub use untyped::UntypedSum;
