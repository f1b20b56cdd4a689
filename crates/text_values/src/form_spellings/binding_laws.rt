//! What binding says over the numbers of names is what is said in words: of its faults and of what it gives.
//!
//! Stands on the definitions of `name_binding` and `hddl_bind`, which speak of numbers, and on those of `hddl_reader` and
//! `form_spellings`, which speak of words; it has no code but laws. The contracts used above, for a domain and a problem that were
//! read (`specs/form_spellings/binding_laws/InOrder`): what is refused is the least fault, and what is bound has none
//! (`whole_texts_are_judged`); the value that is bound is what the two stand for (`whole_texts_are_bound`), in the order in which
//! the texts name it, so that it is the HDDL value of the texts (`what_is_bound_is_of_its_texts`); of two texts that spell it, it
//! is sound, and its networks have no cycle (`read_values_are_sound`, over `bound_values_are_sound` and `tables_of_texts_are_few`);
//! what is read of two PDDL texts and bound is their value, and sound (`read_pddl_is_its_value`).
//!
//! Below them, in reading order: the place of a number is that of its word (`numbers_are_words`); the faults of terms, written
//! types and typed lists are the sentences on their words, and those of atoms, formulas and effects are the faults of what is
//! declared and used in them; where there are none, and each type that is written has a number, each is bound to what it stands for
//! (`terms_are_bound`, `types_are_bound`, `lists_are_bound`, `atoms_are_bound`, `formulas_are_bound`, `effects_are_bound`); the
//! faults of what is declared and used in a whole domain or problem are the sentences on it (`uses_are_said`); so are those of
//! second declarations (`seconds_are_said`), of the names that subtasks and methods call (`calls_are_said`), of the ordering of a
//! network (`orders_are_said`), of a whole network, which without faults is bound (`networks_are_said`) and sound
//! (`networks_are_sound`), of the types of a domain (`domain_types_are_said`, `domain_types_are_bound`), and of schemas and the
//! parts of a problem (`schemas_are_said`, `schemas_are_bound`, `schemas_are_sound`).

mod first_seen;
mod laws;
mod networks;
mod schemas;
mod texts;
mod types;
mod values;

pub use first_seen::what_is_bound_is_of_its_texts;
pub use laws::{
    atoms_are_bound, effects_are_bound, formulas_are_bound, lists_are_bound, numbers_are_words,
    terms_are_bound, types_are_bound, uses_are_said,
};
pub use networks::{
    calls_are_said, networks_are_said, networks_are_sound, orders_are_said, seconds_are_said,
};
pub use schemas::{schemas_are_bound, schemas_are_said, schemas_are_sound};
pub use texts::{whole_texts_are_bound, whole_texts_are_judged};
pub use types::{domain_types_are_bound, domain_types_are_said};
pub use values::{
    bound_values_are_sound, read_pddl_is_its_value, read_values_are_sound, tables_of_texts_are_few,
};
