ghost use Rattle.std.specs.Bool.{OnTrue};
ghost use Rattle.std.specs.Prelude.{ℕ, ◌≡◌, IfOk, List, length};
ghost use Rattle.plan_model.specs.Parts.{AreListed};
ghost use Rattle.text_forms.specs.sheets.Sheets.{capped};
ghost use Rattle.slot_encoder.specs.Encodings.{IsEncoding};
ghost use Rattle.problem_texts.specs.ArePrinted.{IsCompiledProblem};
ghost use Rattle.problem_texts.specs.FewSlots.{GrowsEvenly};
ghost use Rattle.problem_texts.specs.Lengths.{AreSizesOf};
ghost use Rattle.problem_texts.specs.Pages.{AreLengthsOf, IsAppended, encoded_in};

use crate::growth::FewSlots;
use crate::named_objects::named_objects;
use crate::pages::Pages;
use crate::printing::Sizes;
use htn_base::{Memory, Text};
use plan_model::{Compiled, Slots, Style};
use slot_encoder::Encoding;
use std::alloc::Global;
use text_forms::sheets::Ended;

/// The lengths of the two texts with so many slots, by which free ones a method takes. Those with many slots are worked out from those
/// with few where it takes any; where it takes the lowest, what is true of slots grows by their square, and all is counted.
pub fn sizes(
    alloc: Global,
    c: &Compiled,
    slots: u32,
    rule: &Slots,
    style: &Style,
) -> Result<Sizes, Memory>
    requires compiled { IsCompiledProblem c.now }
    requires listed { AreListed c.now.hddl.types }
    ensures sized { IfOk result (AreSizesOf rule.now c.now slots style.now) }
{
    if grows_evenly(c, slots, rule, 2) {
        sizes_from_few(alloc, c, slots, rule, style)
    } else {
        counted(alloc, c, slots, rule, style)
    }
}

/// Whether there are so many times more slots than names and facts of the source, than parts of what it declares, and than parts of
/// its schemas and its goal, it names no slot, and a method takes any free slots.
pub(crate) fn grows_evenly(c: &Compiled, slots: u32, rule: &Slots, times: usize) -> bool
    ensures { OnTrue result (GrowsEvenly rule.now c.now slots) }
{
    if let Slots::First = rule {
        return false;
    }
    let names = c.hddl.names.len().saturating_add(c.hddl.init.len());
    let mut own = names.saturating_add(c.hddl.types.parents.len());
    for union in c.hddl.types.unions.as_slice() {
        own = own.saturating_add(union.len());
    }
    for predicate in c.hddl.predicates.as_slice() {
        own = own.saturating_add(predicate.params.len());
    }
    for task in c.hddl.tasks.as_slice() {
        own = own.saturating_add(task.params.len());
    }
    if slots <= 10 || slots as usize <= own.saturating_mul(times) {
        return false;
    }
    let mut passed: u64 = 0;
    let named = named_objects(c, &mut passed);
    u64::from(slots) > passed.saturating_mul(times as u64) && named <= c.hddl.objects.len() as u64
}

/// Those with one slot, with two and with ten tell all.
pub(crate) fn sizes_from_few(
    alloc: Global,
    c: &Compiled,
    slots: u32,
    rule: &Slots,
    style: &Style,
) -> Result<Sizes, Memory>
    requires compiled { IsCompiledProblem c.now }
    requires listed { AreListed c.now.hddl.types }
    requires evenly { GrowsEvenly rule.now c.now slots }
    ensures sized { IfOk result (AreSizesOf rule.now c.now slots style.now) }
{
    let one = counted(alloc, c, 1, rule, style)?;
    let two = counted(alloc, c, 2, rule, style)?;
    let ten = counted(alloc, c, 10, rule, style)?;
    let domain = FewSlots {
        one: one.domain,
        two: two.domain,
        ten: ten.domain,
    };
    let problem = FewSlots {
        one: one.problem,
        two: two.problem,
        ten: ten.problem,
    };
    Ok(Sizes {
        domain: domain.length_with(slots),
        problem: problem.length_with(slots),
    })
}

/// The lengths by the same printing, of which nothing is kept.
fn counted(
    alloc: Global,
    c: &Compiled,
    slots: u32,
    rule: &Slots,
    style: &Style,
) -> Result<Sizes, Memory>
    requires compiled { IsCompiledProblem c.now }
    requires listed { AreListed c.now.hddl.types }
    ensures sized { IfOk result (AreSizesOf rule.now c.now slots style.now) }
{
    let encoding = Encoding::new(alloc, c, slots, rule, &Style::Adl)?;
    let lengths = lengths_of(alloc, c, &encoding, style);
    drop(encoding);
    lengths
}

fn lengths_of(
    alloc: Global,
    c: &Compiled,
    encoding: &Encoding,
    style: &Style,
) -> Result<Sizes, Memory>
    requires encoding { IsEncoding c.now encoding.now }
    ensures { IfOk result (AreLengthsOf (encoded_in c.now encoding.now style.now)) }
{
    let pages = Pages::new(c, encoding, style)?;
    let mut nothing = Text::new(alloc);
    let domain = pages.append_domain(alloc, 0, &mut nothing)?;
    let problem = pages.append_problem(0, &mut nothing)?;
    Ok(Sizes {
        domain: length_of(domain),
        problem: length_of(problem),
    })
}

/// How many bytes were put within a limit of 0.
fn length_of(ended: Ended) -> u64
    ensures { (bytes old new : List ℕ) → IsAppended bytes 0 old new ended → result ≡ capped (length bytes) }
{
    match ended {
        Ended::Whole => 0,
        Ended::TooLong(length) => length,
    }
}
