ghost use Rattle.std.specs.Prelude.{◌≡◌, ◌≤◌, ◌+◌, length, IfOk};
ghost use Rattle.htn_base.specs.Limits.{most_lines};
ghost use Rattle.hplan_text.specs.Printable.{IsSoundHPlan, IsPrintableHPlan};
ghost use Rattle.plan_texts.specs.SoundlyCompiled.{IsSoundlyCompiled};
ghost use Rattle.step_texts.specs.StepTexts as spec;

use hplan_text::HPlan;
use htn_base::Memory;
use htn_base::limits::MOST_SLOTS;
use plan_model::Compiled;
use plan_placer::{PlaceError, place};
use slot_speller::{SpellError, spell};
use std::alloc::Global;
use tree_core::Scheduled;

/// What a hierarchical plan's latest schedule comes to, in numbers.
#[derive(Clone, Copy)]
pub enum StepCount {
    /// Its width, and the number of its steps.
    Counted { width: u32, steps: u32 },
    /// No ground method fits the root, or the line with this id is the first that none fits.
    NoMatch(Option<u64>),
    /// The line with this id is the first whose action's condition is false.
    NotExecutable(u64),
    /// The goal is false after all actions.
    GoalFalse,
    /// No solution shows the plan.
    NoPlacement,
    /// Its width, which is greater than the most slots that are printed.
    TooWide(u32),
}

/// What a hierarchical plan comes to, in numbers alone: nothing is printed.
pub fn step_count(alloc: Global, c: &Compiled, plan: &HPlan) -> Result<StepCount, Memory>
    requires soundly { IsSoundlyCompiled c.now }
    requires printable { IsPrintableHPlan plan.now }
    requires sound { IsSoundHPlan plan.now }
    requires few { length plan.now.primitives + length plan.now.nodes ≤ most_lines }
    ensures count { IfOk result (spec.IsStepCount c.now plan.now) }
{
    match place(alloc, c, plan) {
        Ok(run) => count_of(alloc, c, &run),
        Err(PlaceError::NoMatch { id }) => Ok(StepCount::NoMatch(id)),
        Err(PlaceError::NotExecutable { id }) => Ok(StepCount::NotExecutable(id)),
        Err(PlaceError::GoalFalse) => Ok(StepCount::GoalFalse),
        Err(PlaceError::NoPlacement) => Ok(StepCount::NoPlacement),
        Err(PlaceError::Memory) => Err(Memory),
    }
}

/// What a run comes to, in numbers: each of its nodes is a step.
fn count_of(alloc: Global, c: &Compiled, run: &Scheduled) -> Result<StepCount, Memory>
    requires soundly { IsSoundlyCompiled c.now }
    requires each_once { length run.now.order ≡ length run.now.tree }
    ensures count { IfOk result (spec.IsRunCount c.now run.now) }
{
    match spell(alloc, c, run, MOST_SLOTS as u32) {
        Ok(spelling) => Ok(StepCount::Counted {
            width: spelling.width(),
            steps: run.tree.size(),
        }),
        Err(SpellError::NeedsBound { needed }) => Ok(StepCount::TooWide(needed)),
        Err(SpellError::Memory) => Err(Memory),
    }
}
