//! What the plans of a printed problem of a stack are, as the contracts of functions that do nothing.
//!
//! `compiled` is compiled of the problem `problem`, with totally ordered methods; the networks have no cycle. `cells` is the number of
//! the highest cell.

ghost use Rattle.plan_model.specs.plan_meaning.Compilation.{IsCompiled};
ghost use Rattle.plan_model.specs.plan_meaning.Laws.{AreOrdered};
ghost use Rattle.plan_proof.specs.Faithful.{IsFaithfulValueBy};
ghost use Rattle.plan_proof.specs.Headline.{EachHasOneSpelling};
ghost use Rattle.stack_encoding.specs.StackPrinted.{IsPrintedStack};
ghost use Rattle.stack_encoding.specs.StackSpelling.{IsStackSpelling};
ghost use Rattle.stack_encoding.specs.TotalOrder.{IsTotallyOrdered};
ghost use Rattle.stack_proof.specs.OneTree.{EachTreeHasOneSpelling};

use plan_model::{Checks, Compiled, Hddl, Pddl};

/// A tree is spelled by one list at most, since it has one order and one cell for each node.
pub fn each_tree_has_one_spelling(problem: &Hddl, checks: &Checks, compiled: &Compiled, cells: u32)
    requires ordered { AreOrdered problem.now }
    requires compiled { IsCompiled problem.now checks.now compiled.now }
    requires total { IsTotallyOrdered compiled.now }
    ensures tree { EachTreeHasOneSpelling IsStackSpelling compiled.now cells }
    ensures schedule { EachHasOneSpelling IsStackSpelling compiled.now cells }
{}

/// The plans of the printed problem, as a value, are the spellings of solutions with their cells, and its executable lists those of
/// executable fronts.
pub fn stack_value_is_faithful(
    problem: &Hddl,
    checks: &Checks,
    compiled: &Compiled,
    cells: u32,
    value: &Pddl,
)
    requires ordered { AreOrdered problem.now }
    requires printed { IsPrintedStack problem.now checks.now compiled.now cells value.now }
    ensures { IsFaithfulValueBy IsStackSpelling compiled.now cells value.now }
{}
