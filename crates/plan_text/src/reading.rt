ghost use Rattle.std.specs.Prelude.{◌≡◌, ◌≤◌, length, IfOk, IfErr};
ghost use Rattle.htn_base.specs.Limits.{longest_input};
ghost use Rattle.plan_text.specs.Plans.{IsPlanRead, RefusesPlan};

use crate::plan::{Plan, Steps};
use crate::step::Step;
use htn_base::{List, Memory};
use plan_model::GroundAction;
use std::alloc::Global;
use text_forms::sexpr_text::ReadError;

/// The plan that a text of at most 16,777,216 bytes spells: steps `(name arg arg)`, each behind at most one mark of digits and a
/// colon. Names are in lower case, and a reserved word may be one. `file` is the place of the text among the command's inputs.
/// `Bad` has the text's least fault of tokens, by offset, then code (1 to 4), and where there is none, code 8 at the first token
/// with which the tokens no longer begin a plan, or at a mark behind which nothing comes.
pub fn read(alloc: Global, bytes: &[u8], file: u8) -> Result<List<GroundAction>, ReadError>
    requires short { length bytes.now ≤ longest_input }
    ensures read { IfOk result (IsPlanRead bytes.now) }
    ensures refused { IfErr result (RefusesPlan file bytes.now) }
{
    match Plan::new(alloc, bytes, file) {
        Ok(plan) => match listed(alloc, plan.steps()) {
            Ok(steps) => Ok(steps),
            Err(Memory) => Err(ReadError::Memory),
        },
        Err(error) => Err(error),
    }
}

// The steps, with their words.
fn listed(alloc: Global, mut steps: Steps<'_>) -> Result<List<GroundAction>, Memory>
    ensures { IfOk result (λ list. list ≡ steps.entry) }
{
    let mut list = List::new(alloc);
    let mut step = Step::new(alloc);
    while steps.next(&mut step)? {
        list.put(step.copy(alloc))?;
    }
    Ok(list)
}
