//! How the values of a column are kept, and the loops over them.
//!
//! The values stand densely by class: a vector of the machine's values, or for texts one buffer of bytes with the place
//! where each text ends. An operator of the values of one class is run over them in a plain loop, which ends at the first
//! row where it has no result.
#![tactic(auto)]

mod faults;
mod integer;
mod loops;
mod operand;
mod stored;
mod values;

pub use faults::OpFault;
pub use integer::{Integer, Wide, difference, product, sum};
pub use loops::{PairOperator, RowOperator, before, behind, each, pairs};
pub use operand::{Beside, Number, Operand};
pub use stored::Stored;
pub use tall_texts::Texts;
pub use values::Values;
