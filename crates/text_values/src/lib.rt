//! The value of two texts, a domain's and a problem's, in HDDL or in PDDL, or their least fault.
//!
//! Stands on `text_forms` for tokens, `hddl_reader` for forms, `hddl_bind` for names and `plan_text` for the fault of a plan's text;
//! the laws of `form_spellings` say in words what those say by numbers. The contracts used above: `hddl_of` answers a value exactly
//! where two HDDL texts have no fault; they then spell it, it is sound, and no network of it has a cycle. `pddl_of` does so for two
//! PDDL texts. Else each answers their least fault, by file, phase, offset and code. Texts that spell a sound value have none, and so
//! have those that are printed for a value: what they are read as is alike to it (`printed_texts_are_read_again`). Below both,
//! `read_as` answers what two texts of either language are read as, with their names bound.
//!
//! A text may be read into any table of words, and its fault of names is said of what was read. Whichever table it is, what is read
//! is the same but for the numbers of words, so two texts have one least fault or none, and so has the text of a plan
//! (`one_least_fault`, `one_fault_of_a_plan`).
#![tactic(auto)]

mod domains;
mod fault_words;
pub mod form_spellings;
mod laws;
mod one_fault;
mod pddl;
mod pddl_laws;
mod problems;
mod reading;
mod values;

pub use fault_words::fault_word;
pub use laws::spelled_texts_have_no_fault;
pub use one_fault::{one_fault_of_a_plan, one_least_fault};
pub use pddl::pddl_of;
pub use pddl_laws::{printed_texts_are_read_again, spelled_pddl_has_no_fault};
pub use values::{hddl_of, read_as};
