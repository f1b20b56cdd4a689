ghost use Rattle.std.specs.Prelude.{◌≡◌, ◌≤◌, [], length, IfOk, IfErr};
ghost use Rattle.htn_base.specs.Limits.{most_slots, most_steps};
ghost use Rattle.plan_model.specs.plan_meaning.Network.{network};
ghost use Rattle.plan_texts.specs.SoundlyCompiled.{IsSoundlyCompiled};
ghost use Rattle.stack_machine.specs.Stack.{IsTotal};
ghost use Rattle.tree_decoder.specs.AtTip.{IsStackDecoded, IsStackRefused};
ghost use Rattle.tree_decoder.specs.Decoded.{IsDecoded, IsRefused};
ghost use Rattle.tree_texts.specs.TreeTexts as spec;

use hplan_text::{HPlan, print, show};
use htn_base::{Memory, Text};
use plan_model::Compiled;
use plan_text::{Plan, Step};
use std::alloc::Global;
use text_forms::sheets::{Ended, Sheet};
use tree_core::Scheduled;
use tree_decoder::{DecodeError, Decoded, Decoder, Why};

/// What the steps of a plan come to.
#[derive(Drop)]
pub enum TreeText {
    /// The text of the hierarchical plan that their solution shows.
    Whole(Text),
    /// The length in bytes of this text, which is longer than the limit; past 2^64 - 1 it counts as 2^64 - 1.
    TooLong(u64),
    /// They spell no solution: the step that fails, counted from 1, and its first cause. What is left at the end counts as a
    /// further step.
    Fails { step: u32, why: Why },
}

/// What the steps of a plan, read one at a time, come to with so many slots; a text is at most `most` bytes long.
pub fn tree_text(
    alloc: Global,
    c: &Compiled,
    slots: u32,
    plan: &Plan<'_>,
    most: u64,
) -> Result<TreeText, Memory>
    requires soundly { IsSoundlyCompiled c.now }
    requires some { 1 ≤ slots }
    requires few_slots { slots ≤ most_slots }
    requires few { length plan.now ≤ most_steps }
    ensures text { IfOk result (spec.IsTreeText c.now slots plan.now most) }
{
    match decoded(alloc, c, slots, plan) {
        Ok(decoded) => text_of(alloc, c, &decoded.run, most),
        Err(DecodeError::NotAPlan { step, why }) => Ok(TreeText::Fails { step, why }),
        Err(DecodeError::Memory) => Err(Memory),
    }
}

/// What the steps of a stack with so many cells come to, where the methods are totally ordered.
pub fn stack_text(
    alloc: Global,
    c: &Compiled,
    cells: u32,
    plan: &Plan<'_>,
    most: u64,
) -> Result<TreeText, Memory>
    requires soundly { IsSoundlyCompiled c.now }
    requires total { IsTotal (network c.now) }
    requires some { 1 ≤ cells }
    requires few_cells { cells ≤ most_slots }
    requires few { length plan.now ≤ most_steps }
    ensures text { IfOk result (spec.IsStackText c.now cells plan.now most) }
{
    match stack_decoded(alloc, c, cells, plan) {
        Ok(decoded) => text_of(alloc, c, &decoded.run, most),
        Err(DecodeError::NotAPlan { step, why }) => Ok(TreeText::Fails { step, why }),
        Err(DecodeError::Memory) => Err(Memory),
    }
}

/// What the steps are decoded to.
fn decoded(alloc: Global, c: &Compiled, slots: u32, plan: &Plan<'_>) -> Result<Decoded, DecodeError>
    requires soundly { IsSoundlyCompiled c.now }
    requires some { 1 ≤ slots }
    requires few_slots { slots ≤ most_slots }
    requires few { length plan.now ≤ most_steps }
    ensures decoded { IfOk result (IsDecoded c.now slots plan.now) }
    ensures refused { IfErr result (IsRefused c.now slots plan.now) }
{
    let mut decoder = Decoder::new(alloc, c, slots)?;
    let mut step = Step::new(alloc);
    let mut steps = plan.steps();
    let mut number = 1;
    while steps.next(&mut step)? {
        if let Some(why) = decoder.take(alloc, step.name(), step.args())? {
            return Err(DecodeError::NotAPlan { step: number, why });
        }
        number += 1;
    }
    decoder.finish(alloc)
}

/// What the steps of a stack are decoded to.
fn stack_decoded(
    alloc: Global,
    c: &Compiled,
    cells: u32,
    plan: &Plan<'_>,
) -> Result<Decoded, DecodeError>
    requires soundly { IsSoundlyCompiled c.now }
    requires total { IsTotal (network c.now) }
    requires some { 1 ≤ cells }
    requires few_cells { cells ≤ most_slots }
    requires few { length plan.now ≤ most_steps }
    ensures decoded { IfOk result (IsStackDecoded c.now cells plan.now) }
    ensures refused { IfErr result (IsStackRefused c.now cells plan.now) }
{
    let mut decoder = Decoder::new(alloc, c, cells)?;
    let mut step = Step::new(alloc);
    let mut steps = plan.steps();
    let mut number = 1;
    while steps.next(&mut step)? {
        if let Some(why) = decoder.take_at_tip(alloc, step.name(), step.args())? {
            return Err(DecodeError::NotAPlan { step: number, why });
        }
        number += 1;
    }
    decoder.finish(alloc)
}

/// The text of the plan that a run shows.
fn text_of(alloc: Global, c: &Compiled, run: &Scheduled, most: u64) -> Result<TreeText, Memory>
    ensures text { IfOk result (spec.IsTextOf c.now run.now most) }
{
    let shown = show(alloc, c, run)?;
    let mut text = Text::new(alloc);
    match printed(&shown, most, &mut text)? {
        Ended::Whole => Ok(TreeText::Whole(text)),
        Ended::TooLong(size) => Ok(TreeText::TooLong(size)),
    }
}

/// Puts the text of a plan on an empty one, if it is no longer than the limit.
fn printed(shown: &HPlan, most: u64, into: &mut Text) -> Result<Ended, Memory>
    requires empty { into.old ≡ [] }
    ensures ended { IfOk result (spec.IsPrinted shown.now most into.new) }
{
    let mut sheet = Sheet::new(into, most);
    print(shown, &mut sheet);
    let ended = sheet.answer();
    // A text has fewer than 2^64 bytes.
    let _ = into.len();
    ended
}
