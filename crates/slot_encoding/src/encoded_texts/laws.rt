//! That the two texts of an encoded value are those of each other: the contracts of functions that do nothing.
//!
//! `slots` is the number of slots, whatever it is.

ghost use Rattle.std.specs.Prelude.{◌≡◌};
ghost use Rattle.plan_texts.specs.PrintedTexts.{domain_text, problem_text};
ghost use Rattle.slot_encoding.specs.encoded_texts.FullyEncoded.{SayTheSame, IsFullyEncoded, IsFullyEncodedBy};

use plan_model::{Compiled, Pddl, Slots, Style};

/// Two PDDL values that say the same in one order have the same two texts.
pub fn texts_are_what_is_said(one: &Pddl, other: &Pddl)
    requires { SayTheSame one.now other.now }
    ensures domain { domain_text one.now ≡ domain_text other.now }
    ensures problem { problem_text one.now ≡ problem_text other.now }
{}

/// All encoded values of a compiled problem over tables that have all their words say the same, so they have the same two
/// texts.
pub fn encoded_values_say_the_same(
    compiled: &Compiled,
    slots: u32,
    style: &Style,
    one: &Pddl,
    other: &Pddl,
)
    requires one { IsFullyEncoded compiled.now slots style.now one.now }
    requires other { IsFullyEncoded compiled.now slots style.now other.now }
    ensures said { SayTheSame one.now other.now }
    ensures domain { domain_text one.now ≡ domain_text other.now }
    ensures problem { problem_text one.now ≡ problem_text other.now }
{}

/// The same by which free slots a method takes.
pub fn encoded_values_say_the_same_by(
    compiled: &Compiled,
    slots: u32,
    rule: &Slots,
    style: &Style,
    one: &Pddl,
    other: &Pddl,
)
    requires one { IsFullyEncodedBy rule.now compiled.now slots style.now one.now }
    requires other { IsFullyEncodedBy rule.now compiled.now slots style.now other.now }
    ensures said { SayTheSame one.now other.now }
    ensures domain { domain_text one.now ≡ domain_text other.now }
    ensures problem { problem_text one.now ≡ problem_text other.now }
{}
