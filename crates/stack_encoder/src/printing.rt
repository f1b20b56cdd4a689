ghost use Rattle.std.specs.Prelude.{ℕ, ◌≡◌, List, length, IfOk, OnOk};
ghost use Rattle.plan_model.specs.Parts.{AreListed};
ghost use Rattle.plan_texts.specs.PrintedTexts.{domain_text, problem_text};
ghost use Rattle.text_forms.specs.sheets.Sheets.{Wrote, capped};
ghost use Rattle.problem_texts.specs.Pages.{AreTextsWithin, IsAppended};
ghost use Rattle.stack_encoder.specs.Heads.{IsStackEncoding, actions_put, all_actions, value_of};
ghost use Rattle.stack_encoder.specs.StackTexts.{AreStackTextsWithin, AreStackSizes};

use crate::encoding::StackEncoding;
use htn_base::{Memory, Text};
use pddl_printer::{put_action, put_domain_start, put_problem};
use plan_model::Compiled;
use problem_texts::{Printed, Sizes, Texts};
use std::alloc::Global;
use text_forms::sheets::{Ended, Sheet};

/// The two texts with cells 0 to `cells`, if neither is longer than the limit: what is printed is counted, so a text past the limit is not
/// kept, and its length is known without it. The problem's types are few, and their parents and unions are listed. An action is made,
/// put and let go, so the time goes with the texts.
pub fn stack_texts_of(
    alloc: Global,
    c: &Compiled,
    cells: u32,
    limit: u64,
) -> Result<Printed, Memory>
    requires listed { AreListed c.now.hddl.types }
    ensures printed { IfOk result (AreStackTextsWithin c.now cells limit) }
{
    let encoding = StackEncoding::new(alloc, c, cells)?;
    let printed = texts_within(alloc, c, &encoding, limit);
    drop(encoding);
    printed
}

/// The lengths of these two texts, by the same printing, of which nothing is kept.
pub fn stack_sizes(alloc: Global, c: &Compiled, cells: u32) -> Result<Sizes, Memory>
    requires listed { AreListed c.now.hddl.types }
    ensures sized { IfOk result (AreStackSizes c.now cells) }
{
    let encoding = StackEncoding::new(alloc, c, cells)?;
    let mut nothing = Text::new(alloc);
    let domain = append_domain(alloc, c, &encoding, 0, &mut nothing)?;
    let problem = append_problem(c, &encoding, 0, &mut nothing)?;
    drop(encoding);
    Ok(Sizes {
        domain: length_of(domain),
        problem: length_of(problem),
    })
}

/// What is printed of the whole head, and of one action at a time.
fn texts_within(
    alloc: Global,
    c: &Compiled,
    encoding: &StackEncoding,
    limit: u64,
) -> Result<Printed, Memory>
    requires encoding { IsStackEncoding c.now encoding.now }
    ensures { IfOk result (AreTextsWithin (value_of c.now encoding.now) limit) }
{
    let mut domain = Text::new(alloc);
    match append_domain(alloc, c, encoding, limit, &mut domain)? {
        Ended::Whole => {
            let mut problem = Text::new(alloc);
            match append_problem(c, encoding, limit, &mut problem)? {
                Ended::Whole => Ok(Printed::Whole(Texts { domain, problem })),
                Ended::TooLong(length) => Ok(Printed::TooLong(length)),
            }
        }
        Ended::TooLong(length) => Ok(Printed::TooLong(length)),
    }
}

/// How many bytes were put within a limit of 0.
fn length_of(ended: Ended) -> u64
    ensures { (bytes old new : List ℕ) → IsAppended bytes 0 old new ended → result ≡ capped (length bytes) }
{
    match ended {
        Ended::Whole => 0,
        Ended::TooLong(length) => length,
    }
}

/// Appends the domain to the text, if it is no longer than the limit.
fn append_domain(
    alloc: Global,
    c: &Compiled,
    encoding: &StackEncoding,
    limit: u64,
    into: &mut Text,
) -> Result<Ended, Memory>
    requires encoding { IsStackEncoding c.now encoding.now }
    ensures { IfOk result
        (IsAppended (domain_text (value_of c.now encoding.now)) limit into.old into.new) }
{
    let mut sheet = Sheet::new(into, limit);
    put_domain_start(&encoding.head, &mut sheet);
    put_actions(alloc, c, encoding, &mut sheet)?;
    sheet.put(b")\n");
    sheet.answer()
}

/// Appends the problem to the text, if it is no longer than the limit.
fn append_problem(
    c: &Compiled,
    encoding: &StackEncoding,
    limit: u64,
    into: &mut Text,
) -> Result<Ended, Memory>
    requires encoding { IsStackEncoding c.now encoding.now }
    ensures { IfOk result
        (IsAppended (problem_text (value_of c.now encoding.now)) limit into.old into.new) }
{
    let mut sheet = Sheet::new(into, limit);
    put_problem(&encoding.head, None, None, &mut sheet);
    sheet.answer()
}

/// Each action is made, put and let go.
fn put_actions(
    alloc: Global,
    c: &Compiled,
    encoding: &StackEncoding,
    sheet: &mut Sheet<'_>,
) -> Result<(), Memory>
    requires encoding { IsStackEncoding c.now encoding.now }
    ensures { OnOk result
        (Wrote (actions_put encoding.now (all_actions c.now encoding.now)) sheet.old sheet.new) }
{
    for k in 0..encoding.count(c) {
        let action = encoding.action(alloc, c, k)?;
        put_action(&encoding.head, None, &action, sheet);
        drop(action);
    }
    Ok(())
}
