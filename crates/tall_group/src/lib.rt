//! Distinct values and groups of columns, over any cut into blocks.
#![tactic(auto)]

mod keys;
mod numbers;
mod table;
mod unique;

pub use fold::GroupFold;
pub use group_columns::GroupColumns;
pub use unique::UniqueFold;

mod bests;
mod fold;
mod group_columns;
mod group_states;
mod groups;
mod limits;
mod natives;
mod places;
mod states;
mod tallies;
mod totals;
