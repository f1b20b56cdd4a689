//! That what is printed, and what is told of bounds and cycles, is fixed: the contracts of functions that do nothing.
//!
//! `slots` is the number of slots, whatever it is; style and mode of checks are those of the words of a run.

ghost use Rattle.std.specs.Prelude.{◌≡◌};
ghost use Rattle.plan_model.specs.plan_meaning.Compilation.{IsCompiled};
ghost use Rattle.plan_texts.specs.FirstSeen.{IsHddlOf};
ghost use Rattle.plan_texts.specs.SoundValue.{IsSoundHddl};
ghost use Rattle.plan_model.specs.plan_meaning.Laws.{AreOrdered};
ghost use Rattle.slot_encoding.specs.Printed.{IsPrinted};
ghost use Rattle.slot_encoding.specs.EncodedWords.{HasEncodedWords};
ghost use Rattle.plan_proof.specs.OneText.{HasOneCompiled, PrintedAreTextsFor, HaveTexts, HaveOnePairOfTexts};
ghost use Rattle.plan_proof.specs.OneGraph.{HaveOneGraph, HaveOneBound, HaveOneNamedCycle};

use plan_model::{Checks, Compiled, Hddl, Pddl, Style};

/// A problem has one compiled value at most in each mode.
pub fn one_compiled_value(problem: &Hddl, checks: &Checks, one: &Compiled, other: &Compiled)
    requires one { IsCompiled problem.now checks.now one.now }
    requires other { IsCompiled problem.now checks.now other.now }
    ensures { one.now ≡ other.now }
{}

/// A problem whose networks have no cycle has exactly one compiled value in each mode. Nothing else is asked for: no limits,
/// and not even that names and types fit together.
pub fn every_problem_has_one_compiled_value(problem: &Hddl, checks: &Checks)
    requires ordered { AreOrdered problem.now }
    ensures { HasOneCompiled problem.now checks.now }
{}

/// Two source texts have one pair of printed texts at most, in each mode of checks, at each number of slots and in each
/// style, whichever values they are read as, and whichever tables the printed values have.
pub fn one_pair_of_texts(domain: &[u8], problem: &[u8], checks: &Checks, slots: u32, style: &Style)
    ensures { HaveOnePairOfTexts domain.now problem.now checks.now slots style.now }
{}

/// The two texts of a printed value, over a table that has all its words, are such a pair.
pub fn printed_texts_are_the_pair(
    domain: &[u8],
    problem: &[u8],
    read: &Hddl,
    checks: &Checks,
    compiled: &Compiled,
    slots: u32,
    style: &Style,
    value: &Pddl,
)
    requires spelled { IsHddlOf domain.now problem.now read.now }
    requires printed { IsPrinted read.now checks.now compiled.now slots style.now value.now }
    requires words { HasEncodedWords compiled.now slots value.now.names }
    ensures { PrintedAreTextsFor domain.now problem.now checks.now slots style.now value.now }
{}

/// And they have one, if they spell a sound value whose networks have no cycle.
pub fn some_pair_of_texts(
    domain: &[u8],
    problem: &[u8],
    read: &Hddl,
    checks: &Checks,
    slots: u32,
    style: &Style,
)
    requires spelled { IsHddlOf domain.now problem.now read.now }
    requires sound { IsSoundHddl read.now }
    requires ordered { AreOrdered read.now }
    ensures { HaveTexts domain.now problem.now checks.now slots style.now }
{}

/// What is compiled of two values of the same source texts has the same edges, cycles and bounds, and the same words on them:
/// so it is one bound that the texts have, or one named cycle, whichever values they are read as.
pub fn one_bound_or_cycle_of_texts(
    domain: &[u8],
    problem: &[u8],
    one: &Hddl,
    other: &Hddl,
    checks: &Checks,
    one_compiled: &Compiled,
    other_compiled: &Compiled,
)
    requires one_spelled { IsHddlOf domain.now problem.now one.now }
    requires other_spelled { IsHddlOf domain.now problem.now other.now }
    requires sound { IsSoundHddl other.now }
    requires one_compiled { IsCompiled one.now checks.now one_compiled.now }
    requires other_compiled { IsCompiled other.now checks.now other_compiled.now }
    ensures graph { HaveOneGraph one_compiled.now other_compiled.now }
    ensures bound { HaveOneBound one_compiled.now other_compiled.now }
    ensures cycle { HaveOneNamedCycle one_compiled.now other_compiled.now }
{}
