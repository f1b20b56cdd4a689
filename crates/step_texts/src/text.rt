ghost use Rattle.std.specs.Prelude.{◌≡◌, ◌≤◌, ◌+◌, [], length, IfOk, IfSome};
ghost use Rattle.htn_base.specs.Limits.{most_lines, most_slots};
ghost use Rattle.hplan_text.specs.Printable.{IsSoundHPlan, IsPrintableHPlan};
ghost use Rattle.plan_texts.specs.SoundlyCompiled.{IsSoundlyCompiled};
ghost use Rattle.plan_text.specs.Printing.{IsPutWithin};
ghost use Rattle.text_forms.specs.sheets.Sheets.{Wrote};
ghost use Rattle.slot_speller.specs.Spelled as spelled;
ghost use Rattle.step_texts.specs.StepTexts as spec;

use hplan_text::HPlan;
use htn_base::limits::MOST_SLOTS;
use htn_base::{Memory, Text};
use itoa::Buffer;
use plan_model::Compiled;
use plan_placer::{PlaceError, place};
use slot_speller::{SpellError, Spelling, spell};
use std::alloc::Global;
use text_forms::sheets::{Ended, Sheet};
use tree_core::Scheduled;

/// What a hierarchical plan comes to.
#[derive(Drop)]
pub enum StepText {
    /// The text of the steps of its latest schedule, behind a line with the width.
    Whole(Text),
    /// The length in bytes of this text, which is longer than the limit; past 2^64 - 1 it counts as 2^64 - 1.
    TooLong(u64),
    /// No ground method fits the root, or the line with this id is the first that none fits.
    NoMatch(Option<u64>),
    /// The line with this id is the first whose action's condition is false.
    NotExecutable(u64),
    /// The goal is false after all actions.
    GoalFalse,
    /// No solution shows the plan.
    NoPlacement,
    /// The width of the latest schedule, which is greater than the given number of slots.
    NeedsBound(u32),
    /// This width, where no number of slots is given, which is greater than the most that are printed.
    TooWide(u32),
}

/// What a hierarchical plan comes to with the given number of slots, or else as many as its latest schedule is wide; a text is at most
/// `most` bytes long.
pub fn step_text(
    alloc: Global,
    c: &Compiled,
    plan: &HPlan,
    given: Option<u32>,
    most: u64,
) -> Result<StepText, Memory>
    requires soundly { IsSoundlyCompiled c.now }
    requires printable { IsPrintableHPlan plan.now }
    requires sound { IsSoundHPlan plan.now }
    requires few { length plan.now.primitives + length plan.now.nodes ≤ most_lines }
    requires given { IfSome given (λ n. n ≤ most_slots) }
    ensures text { IfOk result (spec.IsStepText c.now plan.now given most) }
{
    match place(alloc, c, plan) {
        Ok(run) => text_of(alloc, c, &run, given, most),
        Err(PlaceError::NoMatch { id }) => Ok(StepText::NoMatch(id)),
        Err(PlaceError::NotExecutable { id }) => Ok(StepText::NotExecutable(id)),
        Err(PlaceError::GoalFalse) => Ok(StepText::GoalFalse),
        Err(PlaceError::NoPlacement) => Ok(StepText::NoPlacement),
        Err(PlaceError::Memory) => Err(Memory),
    }
}

/// What a run comes to.
fn text_of(
    alloc: Global,
    c: &Compiled,
    run: &Scheduled,
    given: Option<u32>,
    most: u64,
) -> Result<StepText, Memory>
    requires soundly { IsSoundlyCompiled c.now }
    ensures text { IfOk result (spec.IsRunText c.now run.now given most) }
{
    match spell(alloc, c, run, given.unwrap_or(MOST_SLOTS as u32)) {
        Ok(spelling) => printed(alloc, c, run, &spelling, most),
        Err(SpellError::NeedsBound { needed }) => match given {
            Some(_) => Ok(StepText::NeedsBound(needed)),
            None => Ok(StepText::TooWide(needed)),
        },
        Err(SpellError::Memory) => Err(Memory),
    }
}

/// The text of a spelled run.
fn printed(
    alloc: Global,
    c: &Compiled,
    run: &Scheduled,
    spelling: &Spelling,
    most: u64,
) -> Result<StepText, Memory>
    ensures text { IfOk result
        (spec.IsTextOfSteps (spelled.width_of spelling.now) (spelled.steps_of c.now run.now spelling.now) most) }
{
    let mut text = Text::new(alloc);
    match put(alloc, c, run, spelling, most, &mut text)? {
        Ended::Whole => Ok(StepText::Whole(text)),
        Ended::TooLong(size) => Ok(StepText::TooLong(size)),
    }
}

/// Puts the text of a spelled run on an empty one, if it is no longer than the limit.
fn put(
    alloc: Global,
    c: &Compiled,
    run: &Scheduled,
    spelling: &Spelling,
    most: u64,
    into: &mut Text,
) -> Result<Ended, Memory>
    requires empty { into.old ≡ [] }
    ensures ended { IfOk result (IsPutWithin
        (spec.steps_text (spelled.width_of spelling.now) (spelled.steps_of c.now run.now spelling.now)) most into.new) }
{
    let mut sheet = Sheet::new(into, most);
    put_width(spelling.width(), &mut sheet);
    spelling.put_steps(alloc, c, run, &mut sheet)?;
    let ended = sheet.answer();
    // A text has fewer than 2^64 bytes.
    let _ = into.len();
    ended
}

/// Puts the line with the width.
pub(crate) fn put_width(width: u32, sheet: &mut Sheet<'_>)
    ensures { Wrote (spec.width_line width) sheet.old sheet.new }
{
    let mut digits = Buffer::new();
    sheet.put(b"; slots ");
    sheet.put(digits.format(width).as_bytes());
    sheet.put(b"\n");
}
