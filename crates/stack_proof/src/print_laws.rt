//! That what is printed with a stack is fixed: the contracts of functions that do nothing.
//!
//! `cells` is the number of the highest cell; the mode of checks is that of the words of a run.

ghost use Rattle.std.specs.Prelude.{◌≤◌};
ghost use Rattle.plan_texts.specs.FirstSeen.{IsHddlOf};
ghost use Rattle.plan_texts.specs.SoundValue.{IsSoundHddl};
ghost use Rattle.plan_model.specs.plan_meaning.Compilation.{IsCompiled};
ghost use Rattle.plan_model.specs.plan_meaning.Laws.{AreOrdered};
ghost use Rattle.stack_encoding.specs.StackPrinted.{IsPrintedStack};
ghost use Rattle.stack_encoding.specs.StackWords.{HasStackWords};
ghost use Rattle.stack_encoding.specs.TotalOrder.{IsTotallyOrdered};
ghost use Rattle.stack_proof.specs.StackTexts.{HaveStackTexts, HaveOnePairOfStackTexts, PrintedAreStackTexts};

use plan_model::{Checks, Compiled, Hddl, Pddl};

/// Two source texts have one pair of printed texts at most, in each mode of checks and at each number of cells, whichever values
/// they are read as, and whichever tables the printed values have.
pub fn one_pair_of_stack_texts(domain: &[u8], problem: &[u8], checks: &Checks, cells: u32)
    ensures { HaveOnePairOfStackTexts domain.now problem.now checks.now cells }
{}

/// The two texts of a printed value, over a table that has all its words, are such a pair.
pub fn printed_stack_texts_are_the_pair(
    domain: &[u8],
    problem: &[u8],
    read: &Hddl,
    checks: &Checks,
    compiled: &Compiled,
    cells: u32,
    value: &Pddl,
)
    requires spelled { IsHddlOf domain.now problem.now read.now }
    requires printed { IsPrintedStack read.now checks.now compiled.now cells value.now }
    requires words { HasStackWords compiled.now cells value.now.names }
    ensures { PrintedAreStackTexts domain.now problem.now checks.now cells value.now }
{}

/// And they have one, if they spell a sound value whose networks have no cycle, and its methods are totally ordered.
pub fn some_pair_of_stack_texts(
    domain: &[u8],
    problem: &[u8],
    read: &Hddl,
    checks: &Checks,
    compiled: &Compiled,
    cells: u32,
)
    requires spelled { IsHddlOf domain.now problem.now read.now }
    requires sound { IsSoundHddl read.now }
    requires ordered { AreOrdered read.now }
    requires compiled { IsCompiled read.now checks.now compiled.now }
    requires total { IsTotallyOrdered compiled.now }
    requires some { 1 ≤ cells }
    ensures { HaveStackTexts domain.now problem.now checks.now cells }
{}
