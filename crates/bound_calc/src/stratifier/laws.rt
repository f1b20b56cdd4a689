//! The law of the conditions, the contract of a function that does nothing.

ghost use Rattle.plan_model.specs.plan_meaning.Compilation.{IsCompiled};
ghost use Rattle.plan_model.specs.plan_meaning.Laws.{AreOrdered};
ghost use Rattle.bound_calc.specs.stratifier.Conditions.{HaveNoCycle};

use plan_model::{Checks, Compiled, Hddl};

/// The compiled methods of a problem whose networks have no cycle have none.
pub fn compiled_networks_have_no_cycle(problem: &Hddl, checks: &Checks, compiled: &Compiled)
    requires ordered { AreOrdered problem.now }
    requires compiled { IsCompiled problem.now checks.now compiled.now }
    ensures { HaveNoCycle compiled.now }
{}
