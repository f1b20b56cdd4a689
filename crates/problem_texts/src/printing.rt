ghost use Rattle.std.specs.Prelude.{IfOk};
ghost use Rattle.plan_model.specs.Parts.{AreListed};
ghost use Rattle.slot_encoder.specs.Encodings.{IsEncoding};
ghost use Rattle.problem_texts.specs.ArePrinted.{IsCompiledProblem};
ghost use Rattle.problem_texts.specs.Lengths.{ArePrintedWithin};
ghost use Rattle.problem_texts.specs.Pages.{AreTextsWithin, encoded_in};

use crate::lengths::{grows_evenly, sizes_from_few};
use crate::pages::Pages;
use htn_base::{Memory, Text};
use plan_model::{Compiled, Slots, Style};
use slot_encoder::Encoding;
use std::alloc::Global;
use text_forms::sheets::Ended;

/// The texts of the printed domain and the printed problem.
pub struct Texts {
    pub domain: Text,
    pub problem: Text,
}

impl Drop for Texts {
    fn drop(self) {
        let Texts {
            domain: _,
            problem: _,
        } = self;
    }
}

/// What is printed of a problem within a limit.
#[derive(Drop)]
pub enum Printed {
    /// Both texts.
    Whole(Texts),
    /// The length in bytes of the first text that is longer than the limit; past 2^64 - 1 it counts as 2^64 - 1.
    TooLong(u64),
}

/// The lengths in bytes of the two texts; a length past 2^64 - 1 counts as 2^64 - 1.
#[derive(Clone, Copy)]
pub struct Sizes {
    pub domain: u64,
    pub problem: u64,
}

/// The two texts with so many slots, by which free ones a method takes, if neither is longer than the limit: what is printed is counted,
/// so a text past the limit is not kept, and its length is known without it. The problem is one that was compiled; its types are few, and
/// their parents and unions are listed.
pub fn texts_of(
    alloc: Global,
    c: &Compiled,
    slots: u32,
    rule: &Slots,
    style: &Style,
    limit: u64,
) -> Result<Printed, Memory>
    requires compiled { IsCompiledProblem c.now }
    requires listed { AreListed c.now.hddl.types }
    ensures printed { IfOk result (ArePrintedWithin rule.now c.now slots style.now limit) }
{
    // With 32 times more slots than what the source writes the lengths take little of the time of printing.
    if grows_evenly(c, slots, rule, 32) {
        let sizes = sizes_from_few(alloc, c, slots, rule, style)?;
        if sizes.domain > limit {
            return Ok(Printed::TooLong(sizes.domain));
        }
        if sizes.problem > limit {
            return Ok(Printed::TooLong(sizes.problem));
        }
    }
    let encoding = Encoding::new(alloc, c, slots, rule, &Style::Adl)?;
    let printed = texts_within(alloc, c, &encoding, style, limit);
    drop(encoding);
    printed
}

/// What is printed of the whole head, and of one action at a time.
fn texts_within(
    alloc: Global,
    c: &Compiled,
    encoding: &Encoding,
    style: &Style,
    limit: u64,
) -> Result<Printed, Memory>
    requires encoding { IsEncoding c.now encoding.now }
    ensures { IfOk result (AreTextsWithin (encoded_in c.now encoding.now style.now) limit) }
{
    let pages = Pages::new(c, encoding, style)?;
    let mut domain = Text::new(alloc);
    match pages.append_domain(alloc, limit, &mut domain)? {
        Ended::Whole => {
            let mut problem = Text::new(alloc);
            match pages.append_problem(limit, &mut problem)? {
                Ended::Whole => Ok(Printed::Whole(Texts { domain, problem })),
                Ended::TooLong(length) => Ok(Printed::TooLong(length)),
            }
        }
        Ended::TooLong(length) => Ok(Printed::TooLong(length)),
    }
}
