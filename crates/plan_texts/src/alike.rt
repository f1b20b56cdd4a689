// All values that two texts spell are alike, and being alike is an equivalence.
ghost use Rattle.plan_texts.specs.SpellsPddl.{SpellsPddl};
ghost use Rattle.plan_texts.specs.SpellsHddl.{SpellsHddl};
ghost use Rattle.plan_texts.specs.Alike.{AreAlikePddl, AreAlikeHddl};

use plan_model::{Hddl, Pddl};

/// Two PDDL values that the same texts spell are alike.
pub fn spelled_pddl_alike(domain: &[u8], problem: &[u8], one: &Pddl, other: &Pddl)
    requires first { SpellsPddl domain.now problem.now one.now }
    requires second { SpellsPddl domain.now problem.now other.now }
    ensures { AreAlikePddl one.now other.now }
{}

/// Two HDDL values that the same texts spell are alike.
pub fn spelled_hddl_alike(domain: &[u8], problem: &[u8], one: &Hddl, other: &Hddl)
    requires first { SpellsHddl domain.now problem.now one.now }
    requires second { SpellsHddl domain.now problem.now other.now }
    ensures { AreAlikeHddl one.now other.now }
{}

/// A PDDL value is alike to itself.
pub fn alike_pddl_reflexive(value: &Pddl)
    ensures { AreAlikePddl value.now value.now }
{}

/// Of two alike PDDL values the other is alike to the one.
pub fn alike_pddl_symmetric(one: &Pddl, other: &Pddl)
    requires { AreAlikePddl one.now other.now }
    ensures { AreAlikePddl other.now one.now }
{}

/// Alike PDDL values have the same values alike to them.
pub fn alike_pddl_transitive(one: &Pddl, between: &Pddl, other: &Pddl)
    requires first { AreAlikePddl one.now between.now }
    requires second { AreAlikePddl between.now other.now }
    ensures { AreAlikePddl one.now other.now }
{}

/// An HDDL value is alike to itself.
pub fn alike_hddl_reflexive(value: &Hddl)
    ensures { AreAlikeHddl value.now value.now }
{}

/// Of two alike HDDL values the other is alike to the one.
pub fn alike_hddl_symmetric(one: &Hddl, other: &Hddl)
    requires { AreAlikeHddl one.now other.now }
    ensures { AreAlikeHddl other.now one.now }
{}

/// Alike HDDL values have the same values alike to them.
pub fn alike_hddl_transitive(one: &Hddl, between: &Hddl, other: &Hddl)
    requires first { AreAlikeHddl one.now between.now }
    requires second { AreAlikeHddl between.now other.now }
    ensures { AreAlikeHddl one.now other.now }
{}
