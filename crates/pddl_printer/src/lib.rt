//! Prints the two PDDL texts of a value, a line for each section, with one space between the parts of a list.
//!
//! Stands on `htn_base`, `plan_model`, the sheets and definitions of `text_forms`, and the definitions of `plan_texts`. The
//! contract used above: what is put on a sheet is exactly the defined text, of the value or of the one in which the
//! quantifiers over a range of objects are written out: the two pages, or the domain in parts, which are its start, the
//! line of each action, and its end. What such a quantifier says of each object, and that a variable differs from each of
//! others, is drawn once, with places for the word, and put from there. On a sheet that takes nothing more it is counted all
//! at once. Small pieces, as those of a list's items or of an atom, wait in a batch and are put together. Two calls append a
//! value's texts, which spell it where it is printable; after want of memory a prefix of the text stands. What prints other texts
//! puts parts of them by the same functions: typed lists, formulas, terms, facts and words.
#![tactic(auto)]

mod batch;
mod each_object;
mod effects;
mod facts;
mod formulas;
mod holes;
mod instances;
mod items;
mod lower;
mod lowest;
mod object_range;
mod pages;
mod pairs;
mod pen;
mod schemas;
mod splits;
mod stencil;
mod terms;
mod texts;
mod typed_lists;
mod words;
mod written;
mod written_conditions;
mod written_effects;

pub use batch::Batch;
pub use facts::put_facts;
pub use formulas::{add_formula, put_formula};
pub use items::{Item, put_items};
pub use lower::Lower;
pub use lowest::Lowest;
pub use object_range::Range;
pub use pages::{put_domain_start, put_problem};
pub use schemas::put_action;
pub use splits::{Split, put_split};
pub use terms::add_applied;
pub use texts::{print_domain, print_problem};
pub use typed_lists::add_variables;
pub use words::name_word;
pub use written::Written;
