//! Formulas, effects and typed lists as they are written, with a number for each word and places for faults, and
//! a list of atoms that takes little memory for each.
//!
//! Stands on `htn_base`, and on the tokens and definitions of `text_forms`. The contract used above:
//! each call answers a value exactly where a whole form begins at the token, and else the fault of the
//! first token with which the tokens no longer begin the form; old names keep their numbers, and each further
//! one is of a word of the text, on an error too.
//!
//! A reader of forms that hold these stands on the steps too: what stands at a token (`cursor`) or at
//! a position (`positions`), words, terms and atoms, typed lists, and what stands in the parentheses of a formula
//! or an effect. A step answers what its definition answers of the tokens from `i` on, or where it stops.
#![tactic(auto)]

mod cursor;
mod effects;
mod formulas;
mod kind;
mod laws;
mod positions;
mod raw_facts;
mod raw_params;
mod raw_types;
mod reading;
mod stop;
mod term;
mod typed_lists;
mod words;

pub use cursor::{Item, end_due, item_at, list_due, list_or_end, pass, word_due, word_or_end};
pub use effects::{RawEffect, effect_inside_of};
pub use formulas::{RawFormula, inside_of};
pub use laws::at_most_one_word_is_added_for_each_token;
pub use positions::{
    ItemFrom, WordOrEnd, end_due_from, item_from, opened_or_end_from, word_due_from,
    word_or_end_from,
};
pub use raw_facts::RawFacts;
pub use raw_params::RawParams;
pub use raw_types::RawTypes;
pub use reading::{Got, effect, formula, refusal, typed_list};
pub use stop::{Failure, Stop};
pub use term::{
    RawAtom, RawTerm, applied_of, atom_of, marked_used_of, name_of, see, term_of, terms_of,
    two_terms_of, used_of,
};
pub use typed_lists::{ListKind, RawParam, params_of};
pub use words::{Sort, is_word, rest, sort_of};
