//! The grammars of domains, problems and classical plans, over nested lists with places: for each thing that may be due, which
//! token may come next, what is due behind it, and which code another token has.
//! They stand on the tokens and lists of the root and the words of `htn_base`; no code but laws is here: each call proves what
//! its clauses say, of any grammar that is written in this manner (`Grammar`, `TextGrammar`) and of these.
//! Where tokens do not begin a text's form, one token departs with one code; `definitions_and_plans_have_one_fault` says it of texts.

mod grammar;
mod laws;

pub use grammar::{Grammar, TextGrammar};
pub use laws::{
    begins_what_can_be_whole, definitions_and_plans_have_one_fault, faults_are_departures,
    one_token_departs, parts_keep_their_forms, prefixes_begin, prefixes_begin_texts,
};
