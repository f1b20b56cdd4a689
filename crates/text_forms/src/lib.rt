//! Texts of lists and words: what their bytes, tokens and nested lists are, which faults tokens have, and the grammars of
//! domains, problems and plans; the code that reads tokens, and the sheets that print takes.
//!
//! Stands on the words of `htn_base`. The definitions of texts and their laws stand at the root, the grammars in `form_grammar`; the
//! layers above read and print by them. The contracts used above: a text is answered its tokens exactly where it has none of the
//! faults 1 to 4, else the least of them (`sexpr_text::read`, `read_with_index`); what is put on a sheet one after another is put as
//! one (`sheets::Sheet::put`). What a token is, by the bytes of its text, says `words_are_longest_runs`; that one token departs from a
//! grammar, with one code, `form_grammar::definitions_and_plans_have_one_fault`.
#![tactic(auto)]

pub mod form_grammar;
mod laws;
pub mod sexpr_text;
pub mod sheets;

pub use laws::{faults_law, lists_law, printed_law, tokens_law, words_are_longest_runs};
