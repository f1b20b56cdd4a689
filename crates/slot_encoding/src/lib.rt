//! The printed problem, as it is defined: its names, its actions, its words; that it has one pair of texts, and how they grow with the
//! slots (`encoded_texts`); and what it declares, as it is made (`slot_declarations`).
//!
//! The code above (`slot_encoder`, `problem_texts`) and the proof about plans (`plan_proof`) both stand on these definitions and laws,
//! and on nothing of each other. It stands on the compiled problem of `plan_model::plan_meaning`, on the printable values of
//! `plan_texts` and on the formulas on order pairs of `order_encoder`. The contracts used above: the encoded value of a sound problem,
//! over a table that has all its words, can be printed (`encoded_is_printable`); each compiled problem has an encoded value
//! (`every_problem_has_an_encoded_value`), and all of them have the same two texts
//! (`encoded_texts::encoded_values_say_the_same`). Where a method takes the lowest free slots (`specs/FirstFree`) the same holds:
//! the laws whose names end in `_by` take the choice.
#![tactic(auto)]

pub mod encoded_texts;
pub mod slot_declarations;
mod value_laws;
mod word_laws;

pub use value_laws::{every_problem_has_an_encoded_value, every_problem_has_an_encoded_value_by};
pub use word_laws::{encoded_is_printable, encoded_is_printable_by, printed_words_differ};
