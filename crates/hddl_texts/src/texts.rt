ghost use Rattle.std.specs.Prelude.{◌≡◌, [], IfOk};
ghost use Rattle.hddl_texts.specs.Lengths.{ArePrintedWithin, IsTextWithin};
ghost use Rattle.hddl_texts.specs.PrintedHddl.{hddl_domain_text, hddl_problem_text};
ghost use Rattle.hddl_texts.specs.Texts.{hddl_of};

use crate::pages::{put_hddl_domain, put_hddl_problem};
use crate::problem::PrintedProblem;
use htn_base::{Memory, Text};
use plan_model::Hddl;
use std::alloc::Global;
use text_forms::sheets::{Ended, Sheet};

/// The texts of a domain and of a problem.
#[derive(Drop)]
pub struct Texts {
    pub domain: Text,
    pub problem: Text,
}

/// What is printed of a problem within a limit.
#[derive(Drop)]
pub enum Printed {
    /// Both texts.
    Whole(Texts),
    /// The length in bytes of the first text that is longer than the limit; past 2^64 - 1 it counts as that.
    TooLong(u64),
}

/// The two texts of a problem, if neither is longer than the limit: what is printed is counted, so a text past
/// the limit is not kept, and its length is known without it.
pub fn hddl_texts(alloc: Global, h: Hddl, limit: u64) -> Result<Printed, Memory>
    ensures printed { IfOk result (ArePrintedWithin h limit) }
{
    let p = PrintedProblem::of(alloc, h);
    let printed = texts_within(alloc, &p, limit);
    drop(p);
    printed
}

fn texts_within(alloc: Global, p: &PrintedProblem, limit: u64) -> Result<Printed, Memory>
    ensures { IfOk result (ArePrintedWithin (hddl_of p.now) limit) }
{
    let mut domain = Text::new(alloc);
    match print_domain(p, limit, &mut domain)? {
        Ended::Whole => {
            let mut problem = Text::new(alloc);
            match print_problem(p, limit, &mut problem)? {
                Ended::Whole => Ok(Printed::Whole(Texts { domain, problem })),
                Ended::TooLong(length) => Ok(Printed::TooLong(length)),
            }
        }
        Ended::TooLong(length) => Ok(Printed::TooLong(length)),
    }
}

/// Prints the domain on an empty text, if it is no longer than the limit.
fn print_domain(p: &PrintedProblem, limit: u64, into: &mut Text) -> Result<Ended, Memory>
    requires empty { into.old ≡ [] }
    ensures { IfOk result (IsTextWithin (hddl_domain_text (hddl_of p.now)) limit into.new) }
{
    let mut sheet = Sheet::new(into, limit);
    put_hddl_domain(p, &mut sheet);
    sheet.answer()
}

/// Prints the problem on an empty text, if it is no longer than the limit.
fn print_problem(p: &PrintedProblem, limit: u64, into: &mut Text) -> Result<Ended, Memory>
    requires empty { into.old ≡ [] }
    ensures { IfOk result (IsTextWithin (hddl_problem_text (hddl_of p.now)) limit into.new) }
{
    let mut sheet = Sheet::new(into, limit);
    put_hddl_problem(p, &mut sheet);
    sheet.answer()
}
