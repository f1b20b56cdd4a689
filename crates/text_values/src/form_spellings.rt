//! The grammar of texts and the definition of what a text spells are one grammar; and what binding says over the numbers of names is
//! what is said in words (`binding_laws`).
//!
//! It stands on the definitions of `gd_reader`, `text_forms`, `plan_texts` and `plan_model` and on the faults of names of `hddl_reader`,
//! for `binding_laws` on what `name_binding` and `hddl_bind` say, and has no code but laws. The contracts used above:
//! a form is whole exactly where it spells some formula, effect, typed list, part of a network, schema, domain or problem, once its
//! words are declared suitably (`whole_formulas`, `whole_effects`, `whole_lists`, `whole_networks`, `whole_schemas`,
//! `whole_definitions`), so also where it spells a domain or a problem as declared (`spelled_definitions_are_whole`); what is read,
//! once its names are bound, is spelled by the parts from which it was read (`what_is_read_is_spelled`), and these parts spell nothing
//! else (`what_is_spelled_is_read`); the same holds of the parts of networks (`networks_spell_what_is_bound`), of schemas
//! (`schemas_spell_what_is_bound`) and of the whole texts of a domain and a problem, of HDDL or of PDDL
//! (`texts_spell_what_is_bound`), where what is read of PDDL has no networks (`pddl_texts_have_no_networks`); its names stand in the
//! name table (`names_stand_in_the_table`), its offsets are those of tokens (`places_are_those_of_tokens`), one word at each
//! (`one_word_stands_at_one_offset`), and its lists stand in the order of the text (`what_is_read_is_in_order`); the texts first name
//! types, pairs and unions in the order of its offsets, so what is read, bound in this order, is the value of its texts, of either
//! language (`offsets_tell_what_is_first_seen`), and values of the same PDDL texts have one order (`pddl_values_have_one_order`).
//!
//! Where two texts of HDDL or of PDDL spell a sound value that has few types, and no list stands too deep in them, they are without a
//! fault of tokens, of form or of names (`spelled_texts_are_faultless`); and no list stands too deep exactly where at most 200 stand in
//! one another (`depth_is_that_of_lists`).

pub mod binding_laws;
mod bound;
mod fault_laws;
mod first_seen;
mod laws;
mod names;
mod places;
mod read;
mod rising;

pub use bound::{
    networks_spell_what_is_bound, pddl_texts_have_no_networks, schemas_spell_what_is_bound,
    texts_spell_what_is_bound,
};
pub use fault_laws::{depth_is_that_of_lists, spelled_texts_are_faultless};
pub use first_seen::{offsets_tell_what_is_first_seen, pddl_values_have_one_order};
pub use laws::{
    spelled_definitions_are_whole, whole_definitions, whole_effects, whole_formulas, whole_lists,
    whole_networks, whole_schemas,
};
pub use names::names_stand_in_the_table;
pub use places::places_are_those_of_tokens;
pub use read::{what_is_read_is_spelled, what_is_spelled_is_read};
pub use rising::{one_word_stands_at_one_offset, what_is_read_is_in_order};
