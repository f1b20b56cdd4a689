//! Classical plans as texts, read and printed.
//!
//! Stands on `text_forms` for tokens, sheets and the grammar of plans, on the steps of `plan_model`, and on the definitions of
//! `plan_texts`. The contract used above: `Plan::new` looks a text through, and `Steps::next`
//! puts its next step in place of the one before, so that no list of the steps is kept; `read` makes one. Both answer the steps
//! that a text spells exactly where neither its tokens nor its form has a fault, and else the least fault. `print` appends the
//! text of steps, which spells them where their words are folded names, and after want of memory a prefix of it stands. What is
//! printed is read back as it was (`printed_plans_are_read_back`).
#![tactic(auto)]

mod coming;
mod departing;
mod laws;
mod plan;
mod printing;
mod reading;
mod step;
mod tokens;
mod words;

pub use laws::{faultless_texts_spell_plans, printed_plans_are_read_back};
pub use plan::{Plan, Steps};
pub use printing::{print, put_plan};
pub use reading::read;
pub use step::Step;
