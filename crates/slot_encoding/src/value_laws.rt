//! That there is an encoded value, each law the contract of a function that does nothing.

ghost use Rattle.slot_encoding.specs.Existence.{HasEncodedValue, HasEncodedValueBy};

use plan_model::{Compiled, Slots, Style};

/// Any compiled problem, sound or not, has an encoded value with this number of slots, whose words differ and lack none of the
/// printed words. It is not said that they are few enough for a name table.
pub fn every_problem_has_an_encoded_value(compiled: &Compiled, slots: u32, style: &Style)
    ensures { HasEncodedValue compiled.now slots style.now }
{}

/// The same by which free slots a method takes.
pub fn every_problem_has_an_encoded_value_by(
    compiled: &Compiled,
    slots: u32,
    rule: &Slots,
    style: &Style,
)
    ensures { HasEncodedValueBy rule.now compiled.now slots style.now }
{}
