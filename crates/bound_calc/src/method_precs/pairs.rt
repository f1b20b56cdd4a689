ghost use Rattle.std.specs.Prelude.{◌≡◌, ◌≤◌, ◌++◌, IfOk, length, map};
ghost use Rattle.htn_base.specs.Limits.{most_subtasks};
ghost use Rattle.plan_model.specs.plan_meaning.Compilation as spec;
ghost use Rattle.plan_model.specs.net_order.Meaning.{AreBelow};
ghost use Rattle.bound_calc.specs.method_precs.Pairs.{shifted, pairs_of_check};

use crate::method_precs::single_pairs::single_pairs;
use htn_base::{List, Memory};
use plan_model::{MethodSchema, Pair};
use std::alloc::Global;

/// The pairs of the method's children: the check, if there is one, before each subtask, and then the written pairs,
/// each pair once.
pub fn pairs_of(alloc: Global, checked: bool, method: &MethodSchema) -> Result<List<Pair>, Memory>
    requires small { length method.now.children ≤ most_subtasks }
    requires within { AreBelow (length method.now.children) method.now.pairs }
    ensures pairs { IfOk result (λ pairs. pairs ≡ spec.pairs checked method.now) }
{
    let count = method.children.len();
    if checked {
        let all = with_check(alloc, count as u32, method.pairs.as_slice())?;
        single_pairs(alloc, count + 1, all.as_slice())
    } else {
        single_pairs(alloc, count, method.pairs.as_slice())
    }
}

/// The check before each of so many subtasks, and then the written pairs, by their places behind the check.
fn with_check(alloc: Global, count: u32, pairs: &[Pair]) -> Result<List<Pair>, Memory>
    requires small { count ≤ most_subtasks }
    requires within { AreBelow count pairs.now }
    ensures all { IfOk result (λ all. all ≡ pairs_of_check count ++ map shifted pairs.now) }
{
    let mut all = List::new(alloc);
    for k in 0..count {
        all.push(Pair {
            first: 0,
            then: k + 1,
        })?;
    }
    for pair in pairs {
        all.push(Pair {
            first: pair.first + 1,
            then: pair.then + 1,
        })?;
    }
    Ok(all)
}
