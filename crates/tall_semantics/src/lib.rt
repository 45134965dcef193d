//! The meaning of deferred values, as definitions: what a value's class, rows and outcome are, and the laws of them.
//!
//! No evaluator stands here: the definitions in specs/ are what the crates above are proved against.
#![tactic(auto)]

mod graphs;
mod laws;
mod plans;

pub use graphs::{
    a_tree_reads_what_the_value_reaches, an_added_vertex_keeps_the_numbers,
    shapes_follow_from_the_list, the_chain_is_the_longest,
};
pub use laws::{
    a_fault_is_the_least_own_fault, a_graph_keeps_what_levels_need, a_level_keeps_the_candidate,
    a_vertex_more_keeps_the_values, equal_trees_have_equal_values,
    numbers_are_equal_for_equal_trees, one_pass_a_level_and_datastore,
    operator_faults_keep_their_order, premises_can_be_met, tests_mean_equality,
    the_last_candidate_is_the_fault, the_work_of_a_level_is_ready,
    values_have_the_rows_of_their_space, values_have_their_class, values_in_order_are_the_solution,
};
pub use plans::{
    a_level_keeps_the_carries, a_plan_has_a_pass_for_each_level_and_datastore, what_is_needed,
};
