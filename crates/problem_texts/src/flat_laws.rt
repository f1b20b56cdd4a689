//! How the two styles belong together, as the contract of a function that does nothing.
//!
//! `compiled` is compiled of `read`, in either mode of preconditions, so a method with children has its heir among them, and no
//! child's slot has the number of the variable that ranges over all slots. `slots` is the number of slots, whatever it is.

ghost use Rattle.plan_model.specs.declared.options.Style.TheVariants.{Adl, Flat};
ghost use Rattle.plan_model.specs.plan_meaning.Compilation.{IsCompiled};
ghost use Rattle.slot_encoding.specs.FirstFree.{IsEncodedBy};
ghost use Rattle.pddl_printer.specs.WrittenOut.{written_out};
ghost use Rattle.problem_texts.specs.Slots.{slots_of};

use plan_model::{Checks, Compiled, Hddl, Pddl, Slots};

/// The printed problem in style flat is the one in style adl with the quantifiers over slots written out, but those for lowest
/// free slots, by which free slots a method takes.
pub fn flat_is_written_out(
    read: &Hddl,
    checks: &Checks,
    compiled: &Compiled,
    slots: u32,
    rule: &Slots,
    value: &Pddl,
)
    requires compiled { IsCompiled read.now checks.now compiled.now }
    requires encoded { IsEncodedBy rule.now compiled.now slots Adl value.now }
    ensures { IsEncodedBy rule.now compiled.now slots Flat
        (written_out (slots_of compiled.now slots) value.now) }
{}
