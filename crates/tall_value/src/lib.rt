//! Cells of columns: the classes of the language, values of them, and the operators on them.
//!
//! The classes are the eight integer classes, logical, double and string (docs/LANGUAGE.md, operators and classes). The
//! definitions in specs/ also say what is done with columns of cells: operators row by row, filters, reductions, scans,
//! first and last rows, distinct values and groups.
#![tactic(auto)]

mod cell;
mod class;
mod class_tables;
mod comparisons;
mod compute;
mod doubles;
mod faults;
mod function_classes;
mod functions;
mod integers;
mod operators;
mod ordering;
mod owned;

pub use cell::{Cell, Content};
pub use class::{Class, IntKind, Kind};
pub use class_tables::{result_class, unary_class};
pub use comparisons::{compared, is_above, is_below, is_equal};
pub use compute::{binary, results_have_their_class, unary};
pub use doubles::{checked, double_of_logical, to_double};
pub use faults::{CellFault, ClassFault, Fault, FaultKind, ReadingKind};
pub use function_classes::{logical_kind, method_kind, reduction_class, scan_class};
pub use functions::{Method, Reduction, Scan, columns_have_their_kind, groups_have_their_kinds};
pub use operators::{Binary, Unary};
pub use ordering::{cells_are_ordered, order};
pub use owned::{Name, Owned, Text};

#[cfg(test)]
mod tests;
