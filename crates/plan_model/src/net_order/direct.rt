ghost use Rattle.std.specs.Prelude.{IfOk};
ghost use Rattle.plan_model.specs.net_order.Marks.{AreEmpty, IsSquare};
ghost use Rattle.plan_model.specs.net_order.Meaning.{AreBelow};
ghost use Rattle.plan_model.specs.net_order.Closure.{IsDirect};

use crate::Pair;
use crate::net_order::child_set::ChildSet;
use htn_base::Memory;
use std::alloc::Global;

/// For each child the set of those from which a pair leads to it.
pub fn direct_sets(alloc: Global, count: usize, pairs: &[Pair]) -> Result<Vec<ChildSet>, Memory>
    requires below { AreBelow count pairs.now }
    ensures direct { IfOk result (λ before. IsDirect count pairs.now before.items) }
{
    let mut before = empty_sets(alloc, count)?;
    for pair in pairs {
        before[pair.then as usize].insert(pair.first as usize);
    }
    Ok(before)
}

/// An empty set for each child.
pub fn empty_sets(alloc: Global, count: usize) -> Result<Vec<ChildSet>, Memory>
    ensures square { IfOk result (λ before. IsSquare count before.items) }
    ensures empty { IfOk result (λ before. AreEmpty count before.items) }
{
    let mut before = Vec::new(alloc);
    for _ in 0..count {
        before.push(ChildSet::new(alloc, count)?)?;
    }
    Ok(before)
}
