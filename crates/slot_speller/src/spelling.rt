ghost use Rattle.std.specs.Prelude.{◌≡◌, IfOk, IfErr, OnOk};
ghost use Rattle.plan_texts.specs.PlanText.{plan_text};
ghost use Rattle.plan_texts.specs.SoundlyCompiled.{IsSoundlyCompiled};
ghost use Rattle.text_forms.specs.sheets.Sheets.{Wrote};
ghost use Rattle.slot_speller.specs.Spelled as spec;

use crate::slots::Slots;
use crate::spell_error::SpellError;
use crate::steps::put_step;
use htn_base::Memory;
use plan_model::Compiled;
use problem_index::printed_words;
use std::alloc::Global;
use text_forms::sheets::Sheet;
use tree_core::Scheduled;

/// The lowest free slots of a run's nodes: what spells its steps, one for each node in the order.
pub struct Spelling {
    slots: Slots,
}

impl Drop for Spelling {
    fn drop(self) {
        let Spelling { slots: _ } = self;
    }
}

/// How a run is spelled with the lowest free of so many slots; where its width is greater, `NeedsBound` with the width.
pub fn spell(
    alloc: Global,
    c: &Compiled,
    run: &Scheduled,
    slots: u32,
) -> Result<Spelling, SpellError>
    requires soundly { IsSoundlyCompiled c.now }
    ensures spelled { IfOk result (λ spelling.
        spec.IsSpelled c.now run.now slots (spec.width_of spelling) (spec.steps_of c.now run.now spelling)) }
    ensures refused { IfErr result (spec.IsRefused c.now run.now slots) }
{
    let assigned = Slots::of(alloc, c, run)?;
    let width = assigned.width();
    if width > slots {
        drop(assigned);
        return Err(SpellError::NeedsBound { needed: width });
    }
    Ok(Spelling { slots: assigned })
}

impl Spelling {
    /// The width of the run: the greatest number of nodes pending at a time.
    pub fn width(&self) -> u32
        ensures width { result ≡ spec.width_of self.now }
    {
        self.slots.width()
    }

    /// Puts the steps of the run on a sheet, each as `(name arg arg)` on a line of its own.
    pub fn put_steps(
        &self,
        alloc: Global,
        c: &Compiled,
        run: &Scheduled,
        sheet: &mut Sheet<'_>,
    ) -> Result<(), Memory>
        ensures steps { OnOk result (Wrote (plan_text (spec.steps_of c.now run.now self.now)) sheet.old sheet.new) }
    {
        let words = printed_words(alloc, &c.hddl.names)?;
        let order = run.order.as_slice();
        for node in order {
            put_step(c, &words, &run.tree, &self.slots, *node, sheet);
        }
        drop(words);
        Ok(())
    }
}
