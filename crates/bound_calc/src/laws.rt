//! The law of the lines, the contract of a function that does nothing.

ghost use Rattle.plan_model.specs.plan_meaning.Compilation.{IsCompiled};
ghost use Rattle.bound_calc.specs.Lines.{HaveLines};

use plan_model::{Checks, Compiled, Hddl};

/// The compiled methods of a problem have their lines.
pub fn compiled_methods_have_lines(problem: &Hddl, checks: &Checks, compiled: &Compiled)
    requires compiled { IsCompiled problem.now checks.now compiled.now }
    ensures { HaveLines compiled.now }
{}
