//! Whole domains and problems as they are written, with a number for each name and places for faults; and what faults of names are in
//! them.
//!
//! Stands on `gd_reader` and `htn_base`, on the tokens and grammars of `text_forms` and on the orders of `plan_model::task_networks`. The
//! contract used above: `domain` and `problem` answer the value exactly where the tokens are a whole text of the grammar, and else its
//! one fault of form; old names keep their numbers, and each further one is of a word of the text, on an error too. The
//! language is a parameter: PDDL is HDDL without tasks, methods and an initial network.
//!
//! Below it are the laws by which what `gd_reader` answers is what the grammar with codes says: where a call reads a formula, an effect
//! or a typed list, the tokens are a whole one in the grammar, and where it refuses with a fault, the token at the fault's place departs,
//! with the fault's code (`formulas_have_the_codes_of_the_grammar`, `effects_have_the_codes_of_the_grammar`,
//! `typed_lists_have_the_codes_of_the_grammar`).
//!
//! The faults of names are definitions over what is read, one sentence for each code (`specs/names/Faults`): what a domain or a problem
//! has at a place, the least fault, and none. One fault at most is the least (`one_fault_is_the_least`), the least of two texts is the
//! domain's where it has one (`the_domain_comes_first`), and one cycle at most is a fault (`one_cycle_is_a_fault`).
#![tactic(auto)]

mod definitions;
mod facts;
mod form_laws;
mod items;
mod name_laws;
mod networks;
mod parts;
mod raw_sections;
mod section_bodies;
mod sections;
mod wholes;

pub use definitions::{domain, problem};
pub use form_laws::{
    effects_have_the_codes_of_the_grammar, formulas_have_the_codes_of_the_grammar,
    parts_have_the_codes_of_the_grammar, typed_lists_have_the_codes_of_the_grammar,
    words_are_sorted_as_the_grammar_tests_them,
};
pub use name_laws::{one_cycle_is_a_fault, one_fault_is_the_least, the_domain_comes_first};
pub use networks::{RawCon, RawNet, RawPair, RawSub};
pub use parts::{Part, Parted, RawParts};
pub use raw_sections::RawSections;
pub use sections::{
    Definition, Language, RawAction, RawDomain, RawHead, RawMethod, RawProblem, Section,
};
