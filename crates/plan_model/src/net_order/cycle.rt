ghost use Rattle.std.specs.Prelude.{◌<◌, ◌^◌, ◌↔◌, length, IsTrue, IfOk};
ghost use Rattle.plan_model.specs.task_networks.Order.{IsAcyclic, IsFirstClosing};
ghost use Rattle.plan_model.specs.net_order.Meaning.{AreBelow};
ghost use Rattle.plan_model.specs.Pairs.{pair, Pairs};

use crate::Pair;
use crate::net_order::direct::direct_sets;
use crate::net_order::walk::is_acyclic;
use htn_base::Memory;
use std::alloc::Global;

/// The place of the first pair that closes a cycle with those before it, by halving: the first pairs up to some
/// place have no cycle, and all longer beginnings have one.
pub fn first_closing(alloc: Global, count: usize, pairs: &[Pair]) -> Result<u32, Memory>
    requires small { count < 2 ^ 32 }
    requires below { AreBelow count pairs.now }
    requires few { length pairs.now < 2 ^ 32 }
    requires cyclic { IsAcyclic (Pairs pairs.now) → ⊥ }
    ensures first { IfOk result (IsFirstClosing pair pairs.now) }
{
    let mut acyclic = 0;
    let mut cyclic = pairs.len();
    while cyclic - acyclic > 1 {
        let middle = acyclic + (cyclic - acyclic) / 2;
        if have_no_cycle(alloc, count, &pairs[..middle])? {
            acyclic = middle;
        } else {
            cyclic = middle;
        }
    }
    Ok(acyclic as u32)
}

/// Whether the pairs have no cycle. Their sets are dropped again.
fn have_no_cycle(alloc: Global, count: usize, pairs: &[Pair]) -> Result<bool, Memory>
    requires small { count < 2 ^ 32 }
    requires below { AreBelow count pairs.now }
    ensures told { IfOk result (λ told. IsTrue told ↔ IsAcyclic (Pairs pairs.now)) }
{
    let before = direct_sets(alloc, count, pairs)?;
    is_acyclic(alloc, before.as_slice())
}
