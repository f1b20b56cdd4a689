ghost use Rattle.std.specs.Prelude.{List as Items, ◌≡◌, length, IfOk, IfErr};
ghost use Rattle.plan_model.specs.task_networks.Tree.{Label};
ghost use Rattle.plan_model.specs.plan_meaning.Network.{network};
ghost use Rattle.value_choices.specs.Worlds.{IsWorldOf};
ghost use Rattle.plan_placer.specs.Executed as spec;

use crate::place_error::PlaceError;
use hplan_text::HPlan;
use htn_base::Memory;
use numbered_lines::Said;
use plan_model::Compiled;
use problem_index::World;
use state_history::History;
use std::alloc::Global;

/// The history of the plan's actions, which have these numbers, where each can be executed, and the goal is true after them all.
pub(crate) fn reached(
    alloc: Global,
    c: &Compiled,
    world: &World<'_>,
    plan: &HPlan,
    steps: &[Option<Said>],
) -> Result<History, PlaceError>
    requires world { IsWorldOf c.now world.now }
    requires as_many { length steps.now ≡ length plan.now.primitives }
    ensures reach { IfOk result (spec.Reach c.now steps.now) }
    ensures stopped { IfErr result (spec.AreStopped c.now plan.now steps.now) }
{
    let mut history = executed(alloc, c, world, plan, steps)?;
    let gap = history.last();
    let look = history.look(&c.hddl.goal, &[], gap, world)?;
    if look.truth {
        return Ok(history);
    }
    Err(PlaceError::GoalFalse)
}

/// The history of the plan's actions, where each can be executed.
fn executed(
    alloc: Global,
    c: &Compiled,
    world: &World<'_>,
    plan: &HPlan,
    steps: &[Option<Said>],
) -> Result<History, PlaceError>
    requires world { IsWorldOf c.now world.now }
    requires as_many { length steps.now ≡ length plan.now.primitives }
    ensures states { IfOk result (λ history. (labels : Items (Label (network c.now)))
        → spec.AreLabelsOf c.now steps.now labels → spec.HasStates c.now labels history) }
    ensures stopped { IfErr result (spec.AreStopped c.now plan.now steps.now) }
{
    let mut history = History::new(alloc, &c.hddl.init)?;
    let lines = plan.primitives.as_slice();
    for (place, step) in steps.iter().enumerate() {
        if !execute(alloc, c, world, step, &mut history)? {
            let id = lines[place].id;
            return Err(PlaceError::NotExecutable { id });
        }
    }
    Ok(history)
}

/// Goes on with the action that has these numbers, where its condition is true. Whether it is.
fn execute(
    alloc: Global,
    c: &Compiled,
    world: &World<'_>,
    step: &Option<Said>,
    history: &mut History,
) -> Result<bool, Memory>
    requires { IsWorldOf c.now world.now }
    ensures { IfOk result (λ done. (labels : Items (Label (network c.now))) (label : Label (network c.now))
        → spec.IsLabelOf c.now step.now label → spec.HasStates c.now labels history.old
        → spec.IsExecuted c.now labels label done history.new) }
{
    let Some(said) = step else {
        return Ok(false);
    };
    let Some(schema) = c.hddl.actions.get(said.number as usize) else {
        return Ok(false);
    };
    let objects = said.objects.as_slice();
    let gap = history.last();
    let look = history.look(&schema.pre, objects, gap, world)?;
    if look.truth {
        history.push(alloc, &schema.eff, objects, world)?;
    }
    Ok(look.truth)
}
