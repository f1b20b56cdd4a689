ghost use Rattle.std.specs.Prelude.{◌≡◌, ◌<◌, length, IfOk};
ghost use Rattle.plan_model.specs.net_order.Meaning.{AreBelow};
ghost use Rattle.plan_model.specs.net_order.Closure.{AreFirsts};

use crate::Pair;
use crate::net_order::child_set::ChildSet;
use htn_base::Memory;
use std::alloc::Global;

/// The children with which a pair begins.
pub fn firsts_of(alloc: Global, count: usize, pairs: &[Pair]) -> Result<ChildSet, Memory>
    requires below { AreBelow count pairs.now }
    ensures room { IfOk result (λ set. length set ≡ count) }
    ensures firsts { IfOk result (AreFirsts pairs.now) }
{
    let mut firsts = ChildSet::new(alloc, count)?;
    for pair in pairs {
        firsts.insert(pair.first as usize);
    }
    Ok(firsts)
}
