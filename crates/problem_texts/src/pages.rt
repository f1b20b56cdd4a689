ghost use Rattle.std.specs.Prelude.{◌≡◌, IfOk, OnOk};
ghost use Rattle.plan_texts.specs.PrintedTexts.{domain_text, problem_text};
ghost use Rattle.text_forms.specs.sheets.Sheets.{Wrote};
ghost use Rattle.slot_encoder.specs.Encodings.{IsEncoding};
ghost use Rattle.problem_texts.specs.Pages.{ArePages, IsAppended, actions, actions_in, encoded_in, value_of};
ghost use Rattle.problem_texts.specs.LowerParts.{lower_facts, lowest_with};

use crate::ranges::slots_of;
use htn_base::{Memory, Text, number};
use pddl_printer::{
    Lower, Lowest, Range, Split, Written, put_domain_start, put_problem, put_split,
};
use plan_model::{Compiled, Style};
use slot_encoder::{Encoding, LowerSlots};
use std::alloc::Global;
use text_forms::sheets::{Ended, Sheet};

/// The two pages of an encoded problem: its domain and its problem, with the quantifiers over the slots as they are or written
/// out, and with what is said of lower slots, where a method takes the lowest free ones.
#[derive(Clone, Copy)]
pub(crate) struct Pages<'a> {
    pub(crate) compiled: &'a Compiled,
    pub(crate) encoding: &'a Encoding,
    pub(crate) written: Option<Written>,
    pub(crate) lower: Option<LowerSlots>,
}

impl<'a> Pages<'a> {
    /// Those of an encoding in style adl, in any style.
    pub(crate) fn new(
        c: &'a Compiled,
        encoding: &'a Encoding,
        style: &Style,
    ) -> Result<Pages<'a>, Memory>
        requires encoding { IsEncoding c.now encoding.now }
        ensures pages { IfOk result ArePages }
        ensures value { IfOk result
            (λ pages. value_of pages ≡ encoded_in c.now encoding.now style.now) }
    {
        let written = match style {
            Style::Adl => None,
            Style::Flat => Some(Written::new(&encoding.head, slots_of(c, encoding.slots)?)),
        };
        Ok(Pages {
            compiled: c,
            encoding,
            written,
            lower: encoding.lower_slots(c)?,
        })
    }
}

impl Pages<'_> {
    /// Appends the domain to the text, if it is no longer than the limit.
    pub(crate) fn append_domain(
        &self,
        alloc: Global,
        limit: u64,
        into: &mut Text,
    ) -> Result<Ended, Memory>
        requires pages { ArePages self.now }
        ensures { IfOk result
            (IsAppended (domain_text (value_of self.now)) limit into.old into.new) }
    {
        let mut sheet = Sheet::new(into, limit);
        put_domain_start(&self.encoding.head, &mut sheet);
        self.put_actions(alloc, &mut sheet)?;
        sheet.put(b")\n");
        sheet.answer()
    }

    /// Appends the problem to the text, if it is no longer than the limit.
    pub(crate) fn append_problem(&self, limit: u64, into: &mut Text) -> Result<Ended, Memory>
        requires pages { ArePages self.now }
        ensures { IfOk result
            (IsAppended (problem_text (value_of self.now)) limit into.old into.new) }
    {
        let mut sheet = Sheet::new(into, limit);
        let lower = self.lower_facts();
        put_problem(&self.encoding.head, lower, self.written, &mut sheet);
        sheet.answer()
    }

    /// Each action is made, put and let go.
    fn put_actions(&self, alloc: Global, sheet: &mut Sheet<'_>) -> Result<(), Memory>
        requires pages { ArePages self.now }
        ensures { OnOk result (Wrote (actions_in self.now (actions self.now)) sheet.old sheet.new) }
    {
        for k in 0..self.encoding.count(self.compiled) {
            let action = self.encoding.action(alloc, self.compiled, k)?;
            let lowest = self.lowest_with(action.params.len())?;
            let split = Split {
                name: action.name,
                params: action.params.as_slice(),
                before: action.before.as_slice(),
                spare: action.spare,
                behind: action.behind.as_slice(),
                lowest,
                eff: &action.eff,
            };
            put_split(&self.encoding.head, self.written, &split, sheet);
            drop(action);
        }
        Ok(())
    }

    /// What is true of lower slots, where a method takes the lowest free ones.
    fn lower_facts(&self) -> Option<Lower>
        ensures { result ≡ lower_facts self.now }
    {
        let lower = self.lower?;
        Some(Lower {
            predicate: lower.less,
            range: Range {
                ty: 1,
                first: lower.first,
                count: self.encoding.slots,
            },
        })
    }

    /// How it is asked, behind so many variables, that new slots are the lowest free ones.
    fn lowest_with(&self, variables: usize) -> Result<Option<Lowest>, Memory>
        ensures { IfOk result (λ lowest. lowest ≡ lowest_with self.now.lower variables) }
    {
        let x = number(variables)?;
        match self.lower {
            None => Ok(None),
            Some(lower) => Ok(Some(Lowest {
                free: lower.free,
                less: lower.less,
                other: lower.other,
                x,
            })),
        }
    }
}
