//! The laws of the printed problem of a stack, each the contract of a function that does nothing.
//!
//! `cells` is the number of cells that can hold something: the printed ones are 0 to `cells`. None of the laws asks for total order.

ghost use Rattle.std.specs.Prelude.{◌≡◌};
ghost use Rattle.plan_texts.specs.PrintableValue.{IsPrintable};
ghost use Rattle.plan_texts.specs.PrintedTexts.{domain_text, problem_text};
ghost use Rattle.plan_texts.specs.SoundValue.{IsSoundHddl};
ghost use Rattle.plan_model.specs.plan_meaning.Compilation.{IsCompiled};
ghost use Rattle.slot_encoding.specs.Numberable.{IsNumberable};
ghost use Rattle.slot_encoding.specs.encoded_texts.FullyEncoded.{SayTheSame};
ghost use Rattle.stack_encoding.specs.StackPrinted.{HasStackValue, IsFullyStackEncoded};
ghost use Rattle.stack_encoding.specs.StackValue.{IsStackEncoded};
ghost use Rattle.stack_encoding.specs.StackWords.{HasStackWords};

use plan_model::{Checks, Compiled, Hddl, Pddl};

/// Any compiled problem, sound or not, has a value of a stack with these cells, whose words differ and lack none of the printed
/// words. It is not said that they are few enough for a name table.
pub fn every_problem_has_a_stack_value(compiled: &Compiled, cells: u32)
    ensures { HasStackValue compiled.now cells }
{}

/// The value of a stack of a sound problem, over a table that has all its words, can be printed and read again.
pub fn stack_encoded_is_printable(
    problem: &Hddl,
    checks: &Checks,
    compiled: &Compiled,
    cells: u32,
    value: &Pddl,
)
    requires sound { IsSoundHddl problem.now }
    requires compiled { IsCompiled problem.now checks.now compiled.now }
    requires encoded { IsStackEncoded compiled.now cells value.now }
    requires words { HasStackWords compiled.now cells value.now.names }
    requires numberable { IsNumberable compiled.now cells value.now.names }
    ensures { IsPrintable value.now }
{}

/// All values of a stack of a compiled problem over tables that have all their words say the same, so they have the same two
/// texts.
pub fn stack_values_say_the_same(compiled: &Compiled, cells: u32, one: &Pddl, other: &Pddl)
    requires one { IsFullyStackEncoded compiled.now cells one.now }
    requires other { IsFullyStackEncoded compiled.now cells other.now }
    ensures said { SayTheSame one.now other.now }
    ensures domain { domain_text one.now ≡ domain_text other.now }
    ensures problem { problem_text one.now ≡ problem_text other.now }
{}
