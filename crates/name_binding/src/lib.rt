//! Names bound to what they stand for: in terms, types, typed lists, formulas, effects and facts.
//!
//! Stands on `htn_base`, on `gd_reader` for what is written and on `plan_model` for what it stands for, with its `net_order` for
//! cycles of types. The contracts used above:
//!
//! A name has the number of its first declaration (`Places::get`, with its number of parameters `Heads::get`) or of the innermost
//! variable in force (`Variables::get`); of all faults that were noted the least is kept, by offset and code (`Faults::note`); a term is
//! bound to what stands for it, or its fault is noted (`term_of`, `terms_of`).
//!
//! The types of a section stand in the order in which the text first names them, and too many are a fault (`section_of`); their pairs
//! (`parents_of`); the number of types as they are written, or the faults of their names (`TypeTable::kind_of`), and so for the words of
//! a typed list (`params_of`, `objects_of`); the unions that typed lists, formulas and effects write (`put_unions` and its kin),
//! numbered by the offsets of their first words, each once (`TypeTable::add_unions`). The types that words of a typed list have in
//! common are bound once, and the words keep one union.
//!
//! A formula, an effect or an atom is bound to what it stands for, the faults of its names are noted, and the variables in force are as
//! they were (`formula_of`, `effect_of`, `atom_of`); and so is a fact, where no variable is in force (`fact_of`).
#![tactic(auto)]

mod atoms;
mod cycle;
mod effects;
mod facts;
mod faults;
mod first_seen;
mod formulas;
mod heads;
mod known;
mod listed;
mod members;
mod parents;
mod places;
mod section;
mod table;
mod terms;
mod typed;
mod union_table;
mod unions;
mod variables;

pub use atoms::atom_of;
pub use effects::effect_of;
pub use facts::fact_of;
pub use faults::{Faults, Spot};
pub use formulas::formula_of;
pub use heads::{Declared, Head, Heads};
pub use known::Known;
pub use listed::types_of;
pub use members::Members;
pub use parents::parents_of;
pub use places::Places;
pub use section::section_of;
pub use table::TypeTable;
pub use terms::{found_or_noted, term_of, terms_of};
pub use typed::{objects_of, params_of};
pub use unions::{Either, put_unions, put_unions_of_effect, put_unions_of_formula};
pub use variables::Variables;
