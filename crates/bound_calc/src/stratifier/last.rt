//! The last child of a method. Where the pairs have no cycle, it is the only child that is first in none of them.

ghost use Rattle.std.specs.Prelude.{IfOk};
ghost use Rattle.bound_calc.specs.stratifier.Conditions.{IsOrdered, IsSmallMethod};
ghost use Rattle.bound_calc.specs.stratifier.Bad.{IsLastOf};

use htn_base::Memory;
use plan_model::MethodPlan;
use std::alloc::Global;

/// The child that all others of the method precede, if there is one.
pub fn last_child(alloc: Global, plan: &MethodPlan) -> Result<Option<u32>, Memory>
    requires small { IsSmallMethod plan.now }
    requires ordered { IsOrdered plan.now }
    ensures last { IfOk result (IsLastOf plan.now) }
{
    let mut firsts = vec![in alloc; false; plan.schema.children.len()]?;
    for pair in plan.schema.pairs.as_slice() {
        firsts[pair.first as usize] = true;
    }
    let mut only = None;
    for (i, first) in firsts.as_slice().iter().enumerate() {
        if !*first {
            if only.is_some() {
                return Ok(None);
            }
            only = Some(i as u32);
        }
    }
    Ok(only)
}
