//! The slots of a decomposition tree whose nodes are taken in an order: the lowest free ones, how many there are, and the steps that
//! they spell.
//!
//! Stands on `tree_core` for runs, on `schedules` for the law that lowest free slots always can be taken and are the only ones, on
//! `plan_texts` for what is asked of a compiled problem and for the text of steps, on `problem_index` for printed words, and on
//! `plan_text` for how each step is laid out. The contract used above: `spell` gives how a run is spelled with the lowest of the slots,
//! exactly where its width is at most the slots; else it says the width. The spelling has the width, and puts the steps on a sheet.
#![tactic(auto)]

mod children;
mod free;
mod slots;
mod spell_error;
mod spelling;
mod steps;
mod words;

pub use spell_error::SpellError;
pub use spelling::{Spelling, spell};
