//! The headline of a stack, as the contracts of functions that do nothing.
//!
//! `read` is a value of the two source texts, `compiled` is compiled of it, with totally ordered methods, and `value` is its printed
//! problem; its networks have no cycle. `cells` is the number of the highest cell; the lowest is 0, and holds nothing.

ghost use Rattle.plan_texts.specs.FirstSeen.{IsHddlOf};
ghost use Rattle.plan_model.specs.plan_meaning.Compilation.{IsCompiled};
ghost use Rattle.plan_model.specs.plan_meaning.Laws.{AreOrdered};
ghost use Rattle.plan_proof.specs.Headline.{PrintedHeadlineBy, PrintedHeadlineAtBoundBy};
ghost use Rattle.stack_encoding.specs.StackPrinted.{IsPrintedStack};
ghost use Rattle.stack_encoding.specs.StackSpelling.{IsStackSpelling};
ghost use Rattle.stack_proof.specs.OneTree.{PrintedOnePlanForEachTree};

use plan_model::{Checks, Compiled, Hddl, Pddl};

/// The printed problem of one value of the source texts is that of each other, whose networks have no cycle either.
pub fn printed_stack_for_each(
    domain: &[u8],
    problem: &[u8],
    read: &Hddl,
    checks: &Checks,
    compiled: &Compiled,
    cells: u32,
    value: &Pddl,
    other: &Hddl,
    other_compiled: &Compiled,
)
    requires spelled { IsHddlOf domain.now problem.now read.now }
    requires printed { IsPrintedStack read.now checks.now compiled.now cells value.now }
    requires ordered { AreOrdered read.now }
    requires other_spelled { IsHddlOf domain.now problem.now other.now }
    requires other_compiled { IsCompiled other.now checks.now other_compiled.now }
    ensures printed { IsPrintedStack other.now checks.now other_compiled.now cells value.now }
    ensures ordered { AreOrdered other.now }
{}

/// For every value of the two source texts: the two printed texts are faithful to what is compiled of it.
pub fn stack_headline(
    domain: &[u8],
    problem: &[u8],
    read: &Hddl,
    checks: &Checks,
    compiled: &Compiled,
    cells: u32,
    value: &Pddl,
)
    requires spelled { IsHddlOf domain.now problem.now read.now }
    requires printed { IsPrintedStack read.now checks.now compiled.now cells value.now }
    requires ordered { AreOrdered read.now }
    ensures { PrintedHeadlineBy IsStackSpelling domain.now problem.now checks.now cells value.now }
{}

/// And where there are as many cells as the bound, or more, they lose no solution.
pub fn stack_headline_at_bound(
    domain: &[u8],
    problem: &[u8],
    read: &Hddl,
    checks: &Checks,
    compiled: &Compiled,
    cells: u32,
    value: &Pddl,
)
    requires spelled { IsHddlOf domain.now problem.now read.now }
    requires printed { IsPrintedStack read.now checks.now compiled.now cells value.now }
    requires ordered { AreOrdered read.now }
    ensures { PrintedHeadlineAtBoundBy IsStackSpelling domain.now problem.now checks.now cells value.now }
{}

/// Each solution tree that never has more tasks pending than there are cells has exactly one plan.
pub fn each_tree_has_one_plan(
    domain: &[u8],
    problem: &[u8],
    read: &Hddl,
    checks: &Checks,
    compiled: &Compiled,
    cells: u32,
    value: &Pddl,
)
    requires spelled { IsHddlOf domain.now problem.now read.now }
    requires printed { IsPrintedStack read.now checks.now compiled.now cells value.now }
    requires ordered { AreOrdered read.now }
    ensures { PrintedOnePlanForEachTree IsStackSpelling domain.now problem.now checks.now cells value.now }
{}
