ghost use Rattle.std.specs.Prelude.{◌≡◌, map, IfOk, IfErr, OnOk};
ghost use Rattle.htn_base.specs.Escapes.{escaped};
ghost use Rattle.plan_texts.specs.PlanText.{plan_text};
ghost use Rattle.plan_texts.specs.SoundlyCompiled.{IsSoundlyCompiled};
ghost use Rattle.text_forms.specs.sheets.Sheets.{Wrote};
ghost use Rattle.slot_speller.specs.Spelled.{IsRefused};
ghost use Rattle.stack_encoding.specs.TotalOrder.{IsTotallyOrdered};
ghost use Rattle.stack_speller.specs.StackSpelled as spec;

use crate::steps::put_step;
use crate::tips::{child_count, next_tip};
use htn_base::{Memory, NameTable};
use plan_model::Compiled;
use problem_index::printed_words;
use slot_speller::SpellError;
use std::alloc::Global;
use text_forms::sheets::Sheet;
use tree_core::Scheduled;

/// The width of a run, the greatest number of nodes pending at a time, where that is at most the number of cells: its steps spell it with
/// as many. Where it is greater, `NeedsBound` with the width.
pub fn spell(c: &Compiled, run: &Scheduled, cells: u32) -> Result<u32, SpellError>
    requires soundly { IsSoundlyCompiled c.now }
    requires ordered { IsTotallyOrdered c.now }
    ensures spelled { IfOk result (λ width. spec.IsSpelled c.now run.now cells width (spec.steps_of c.now run.now)) }
    ensures refused { IfErr result (IsRefused c.now run.now cells) }
{
    let width = width_of(c, run)?;
    if width > cells {
        return Err(SpellError::NeedsBound { needed: width });
    }
    Ok(width)
}

/// The greatest cell of a node of the run.
fn width_of(c: &Compiled, run: &Scheduled) -> Result<u32, Memory>
    ensures width { IfOk result (λ width. width ≡ spec.width_of c.now run.now) }
{
    let mut tip: u32 = 1;
    let mut width: u32 = 0;
    let order = run.order.as_slice();
    for node in order {
        if tip > width {
            width = tip;
        }
        let children = child_count(c, &run.tree, *node);
        let next = next_tip(tip, children)?;
        tip = next;
    }
    Ok(width)
}

/// Puts the steps of the run on a sheet, each as `(name arg arg)` on a line of its own.
pub fn put_steps(
    alloc: Global,
    c: &Compiled,
    run: &Scheduled,
    sheet: &mut Sheet<'_>,
) -> Result<(), Memory>
    ensures steps { OnOk result (Wrote (plan_text (spec.steps_of c.now run.now)) sheet.old sheet.new) }
{
    let words = printed_words(alloc, &c.hddl.names)?;
    let put = put_each(c, &words, run, sheet);
    drop(words);
    put
}

/// Puts them with these printed words.
fn put_each(
    c: &Compiled,
    words: &NameTable,
    run: &Scheduled,
    sheet: &mut Sheet<'_>,
) -> Result<(), Memory>
    requires words { words.now ≡ map escaped c.now.hddl.names }
    ensures steps { OnOk result (Wrote (plan_text (spec.steps_of c.now run.now)) sheet.old sheet.new) }
{
    let mut tip: u32 = 1;
    let order = run.order.as_slice();
    for node in order {
        let children = child_count(c, &run.tree, *node);
        let next = next_tip(tip, children)?;
        put_step(c, words, &run.tree, *node, tip, children, sheet);
        tip = next;
    }
    Ok(())
}
