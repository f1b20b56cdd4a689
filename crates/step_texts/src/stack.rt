ghost use Rattle.std.specs.Prelude.{◌≡◌, ◌≤◌, ◌+◌, [], length, IfOk, IfSome};
ghost use Rattle.htn_base.specs.Limits.{most_lines, most_slots};
ghost use Rattle.hplan_text.specs.Printable.{IsSoundHPlan, IsPrintableHPlan};
ghost use Rattle.plan_texts.specs.SoundlyCompiled.{IsSoundlyCompiled};
ghost use Rattle.plan_text.specs.Printing.{IsPutWithin};
ghost use Rattle.stack_encoding.specs.TotalOrder.{IsTotallyOrdered};
ghost use Rattle.stack_speller.specs.StackSpelled as spelled;
ghost use Rattle.step_texts.specs.StackTexts as spec;
ghost use Rattle.step_texts.specs.StepTexts.{steps_text, IsTextOfSteps};

use crate::text::{StepText, put_width};
use hplan_text::HPlan;
use htn_base::limits::MOST_SLOTS;
use htn_base::{Memory, Text};
use plan_model::Compiled;
use plan_placer::{PlaceError, place};
use slot_speller::SpellError;
use stack_speller::{put_steps, spell};
use std::alloc::Global;
use text_forms::sheets::{Ended, Sheet};
use tree_core::Scheduled;

/// What a hierarchical plan comes to as a stack, with the given number of cells, or else as many as its latest schedule is wide; a text
/// is at most `most` bytes long. All methods are totally ordered. What else it may come to, and its width, is as with slots.
pub fn stack_text(
    alloc: Global,
    c: &Compiled,
    plan: &HPlan,
    given: Option<u32>,
    most: u64,
) -> Result<StepText, Memory>
    requires soundly { IsSoundlyCompiled c.now }
    requires ordered { IsTotallyOrdered c.now }
    requires printable { IsPrintableHPlan plan.now }
    requires sound { IsSoundHPlan plan.now }
    requires few { length plan.now.primitives + length plan.now.nodes ≤ most_lines }
    requires given { IfSome given (λ n. n ≤ most_slots) }
    ensures text { IfOk result (spec.IsStackText c.now plan.now given most) }
{
    match place(alloc, c, plan) {
        Ok(run) => stacked(alloc, c, &run, given, most),
        Err(PlaceError::NoMatch { id }) => Ok(StepText::NoMatch(id)),
        Err(PlaceError::NotExecutable { id }) => Ok(StepText::NotExecutable(id)),
        Err(PlaceError::GoalFalse) => Ok(StepText::GoalFalse),
        Err(PlaceError::NoPlacement) => Ok(StepText::NoPlacement),
        Err(PlaceError::Memory) => Err(Memory),
    }
}

/// What a run comes to.
fn stacked(
    alloc: Global,
    c: &Compiled,
    run: &Scheduled,
    given: Option<u32>,
    most: u64,
) -> Result<StepText, Memory>
    requires soundly { IsSoundlyCompiled c.now }
    requires ordered { IsTotallyOrdered c.now }
    ensures text { IfOk result (spec.IsStackRunText c.now run.now given most) }
{
    match spell(c, run, given.unwrap_or(MOST_SLOTS as u32)) {
        Ok(width) => printed_stack(alloc, c, run, width, most),
        Err(SpellError::NeedsBound { needed }) => match given {
            Some(_) => Ok(StepText::NeedsBound(needed)),
            None => Ok(StepText::TooWide(needed)),
        },
        Err(SpellError::Memory) => Err(Memory),
    }
}

/// The text of a run, behind a line with this width.
fn printed_stack(
    alloc: Global,
    c: &Compiled,
    run: &Scheduled,
    width: u32,
    most: u64,
) -> Result<StepText, Memory>
    ensures text { IfOk result (IsTextOfSteps width (spelled.steps_of c.now run.now) most) }
{
    let mut text = Text::new(alloc);
    match put_stack(alloc, c, run, width, most, &mut text)? {
        Ended::Whole => Ok(StepText::Whole(text)),
        Ended::TooLong(size) => Ok(StepText::TooLong(size)),
    }
}

/// Puts the text of a run on an empty one, if it is no longer than the limit.
fn put_stack(
    alloc: Global,
    c: &Compiled,
    run: &Scheduled,
    width: u32,
    most: u64,
    into: &mut Text,
) -> Result<Ended, Memory>
    requires empty { into.old ≡ [] }
    ensures ended { IfOk result (IsPutWithin (steps_text width (spelled.steps_of c.now run.now)) most into.new) }
{
    let mut sheet = Sheet::new(into, most);
    put_width(width, &mut sheet);
    put_steps(alloc, c, run, &mut sheet)?;
    let ended = sheet.answer();
    // A text has fewer than 2^64 bytes.
    let _ = into.len();
    ended
}
