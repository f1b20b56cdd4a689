ghost use Rattle.std.specs.Prelude.{◌≤◌, ◌<◌, ◌-◌, ◌^◌, [], length, IfOk, IfErr};
ghost use Rattle.htn_base.specs.Limits.{longest_input};
ghost use Rattle.ground_state.specs.Runs.{IsRunnable, HasTaken};
ghost use Rattle.plan_text.specs.Plans.{RefusesPlan};
ghost use Rattle.htn_cli.specs.Checks.{IsChecked, Judges};

use crate::checked::Checked;
use ground_state::{FailWhy, Run};
use htn_base::Memory;
use plan_model::Pddl;
use plan_text::{Plan, Step};
use std::alloc::Global;
use text_forms::sexpr_text::ReadError;

/// Whether a text of at most 16,777,216 bytes spells a plan of the value with at most `most` steps; else how many they are,
/// or the first step that fails and its first cause. `file` is the place of the text among the command's inputs; a text
/// that spells no list of steps is refused for its least fault.
pub fn check(
    alloc: Global,
    p: &Pddl,
    text: &[u8],
    file: u8,
    most: u32,
) -> Result<Checked, ReadError>
    requires runnable { IsRunnable p.now }
    requires short { length text.now ≤ longest_input }
    requires few { most < 2 ^ 32 - 1 }
    ensures checked { IfOk result (IsChecked p.now text.now most) }
    ensures refused { IfErr result (RefusesPlan file text.now) }
{
    match Plan::new(alloc, text, file) {
        Ok(plan) => match judged(alloc, p, &plan, most) {
            Ok(checked) => Ok(checked),
            Err(Memory) => Err(ReadError::Memory),
        },
        Err(error) => Err(error),
    }
}

/// What the list of a text is.
fn judged(alloc: Global, p: &Pddl, plan: &Plan<'_>, most: u32) -> Result<Checked, Memory>
    requires runnable { IsRunnable p.now }
    requires few { most < 2 ^ 32 - 1 }
    ensures { IfOk result (Judges p.now most plan.now) }
{
    if plan.len() > most as usize {
        return Ok(Checked::TooMany(plan.len()));
    }
    let mut run = Run::new(alloc, p)?;
    replayed(alloc, plan, &mut run)
}

/// What a list is, of which a run of its problem has taken no step yet.
fn replayed(alloc: Global, plan: &Plan<'_>, run: &mut Run<'_>) -> Result<Checked, Memory>
    requires few { length plan.now < 2 ^ 32 - 1 }
    requires fresh { HasTaken run.old.p.now [] run.old }
    ensures { IfOk result (Judges run.old.p.now (length plan.now) plan.now) }
{
    let mut step = Step::new(alloc);
    let mut steps = plan.steps();
    let mut number = 1;
    while steps.next(&mut step)? {
        if let Some(why) = run.take(alloc, step.name(), step.args())? {
            return Ok(Checked::Fails { step: number, why });
        }
        number += 1;
    }
    if run.reaches_goal() {
        return Ok(Checked::Plan);
    }
    Ok(Checked::Fails {
        step: number,
        why: FailWhy::GoalFalse,
    })
}
