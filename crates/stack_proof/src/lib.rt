//! The proof about plans of a stack: the plans of the printed problem spell the solutions of a totally ordered problem with their cells,
//! one list for each solution tree, for every value of the source texts.
//!
//! A state of this problem reads as one of the stack of `stack_machine`. It stands on the printed problem of `stack_encoding`, and on what
//! `plan_proof` says of source parts; it has no code but laws. The contracts used above: `stack_headline`, `stack_headline_at_bound`,
//! `each_tree_has_one_plan`; that two source texts have one pair of printed texts (`one_pair_of_stack_texts`,
//! `some_pair_of_stack_texts`); and that it is theirs which methods are totally ordered (`values_are_ordered_alike`).
#![tactic(auto)]

mod order_laws;
mod plan_laws;
mod print_laws;
mod value_laws;

pub use order_laws::{ordered_or_one_first, values_are_ordered_alike};
pub use plan_laws::{each_tree_has_one_spelling, stack_value_is_faithful};
pub use print_laws::{
    one_pair_of_stack_texts, printed_stack_texts_are_the_pair, some_pair_of_stack_texts,
};
pub use value_laws::{
    each_tree_has_one_plan, printed_stack_for_each, stack_headline, stack_headline_at_bound,
};
