//! Values over blocks of a datastore's rows: what each value is over one block, and that the blocks together give what all
//! rows give.
//!
//! No code stands here: a pass over a datastore is proved against the definitions in specs/.
#![tactic(auto)]

mod columns;
mod laws;
mod levels;
mod parts;
mod pieces;
mod plans;

pub use columns::{
    functions_of_columns_go_on_block_by_block, values_that_need_all_rows_go_on_block_by_block,
};
pub use laws::{
    a_carry_is_the_fold_before_the_block, a_pass_by_blocks_gives_the_values,
    a_value_has_the_rows_of_its_parts, premises_can_be_met, scans_go_on_from_a_carry,
    values_over_some_rows_exist,
};
pub use levels::{a_pass_finds_the_fault_of_its_level, the_values_of_a_pass_are_told};
pub use parts::{
    distinct_cells_of_parts_give_the_distinct_cells, ends_of_parts_give_the_ends,
    groups_of_parts_give_the_groups, places_and_numbers_of_rows_agree,
    reductions_go_on_from_what_is_kept,
};
pub use pieces::{
    a_block_is_computed_from_its_carries, the_least_fault_goes_from_block_to_block,
    values_over_a_block_are_within_their_class,
};
pub use plans::{passes_go_level_by_level, the_work_of_a_pass_is_that_of_its_level};
