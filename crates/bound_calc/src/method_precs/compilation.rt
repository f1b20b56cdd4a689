ghost use Rattle.std.specs.Prelude.{IfOk};
ghost use Rattle.plan_model.specs.task_networks.Lawful.{IsLawful};
ghost use Rattle.plan_model.specs.Parts.{AreListed};
ghost use Rattle.plan_texts.specs.SoundProblem.{HasSmallMethods};
ghost use Rattle.plan_model.specs.plan_meaning.Compilation.{IsCompiled};
ghost use Rattle.plan_model.specs.plan_meaning.Network.{network};
ghost use Rattle.plan_model.specs.plan_meaning.Laws.{AreOrdered};

use crate::method_precs::plans::plans_of;
use htn_base::Memory;
use plan_model::{Checks, Compiled, Hddl};
use std::alloc::Global;

/// The compiled value of a problem: the problem itself, and its methods as they are encoded, the top method first.
/// It takes memory for n² bits for a network of n subtasks.
pub fn compile(alloc: Global, problem: Hddl, checks: &Checks) -> Result<Compiled, Memory>
    requires ordered { AreOrdered problem }
    requires small { HasSmallMethods problem }
    requires listed { AreListed problem.types }
    ensures compiled { IfOk result (IsCompiled problem checks.now) }
    ensures lawful { IfOk result (λ compiled. IsLawful (network compiled)) }
{
    match plans_of(alloc, &problem, checks) {
        Ok(methods) => Ok(Compiled {
            hddl: problem,
            methods,
        }),
        Err(Memory) => {
            drop(problem);
            Err(Memory)
        }
    }
}
