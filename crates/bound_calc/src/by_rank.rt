ghost use Rattle.std.specs.Prelude.{IfOk};
ghost use Rattle.bound_calc.specs.stratifier.Conditions.{IsSmallCompiled};
ghost use Rattle.bound_calc.specs.stratifier.Stratified.{IsStratified};
ghost use Rattle.bound_calc.specs.ByRank.{AreByRank};

use crate::stratifier::{Ranks, reached};
use htn_base::Memory;
use plan_model::Compiled;
use std::alloc::Global;

/// The methods of the tasks that are reached, each behind its task's number, the lowest first.
pub fn by_rank(alloc: Global, c: &Compiled, r: &Ranks) -> Result<Vec<(u32, u32)>, Memory>
    requires small { IsSmallCompiled c.now }
    requires strata { IsStratified c.now r.now }
    ensures places { IfOk result (λ places. AreByRank c.now r.now places.items) }
{
    let marks = reached(alloc, c)?;
    let mut places = Vec::new(alloc);
    for (m, plan) in c.methods.as_slice().iter().enumerate() {
        let task = plan.schema.task;
        if marks[task as usize] {
            places.push((r.rank(task), m as u32))?;
        }
    }
    places.sort_unstable();
    Ok(places)
}
