ghost use Rattle.std.specs.Prelude.{◌<◌, ◌^◌, length, IfOk, IfErr};
ghost use Rattle.plan_model.specs.task_networks.Order.{IsLine};
ghost use Rattle.plan_model.specs.net_order.Meaning.{AreBelow, IsRefusedBy};
ghost use Rattle.plan_model.specs.Pairs.{Pairs};
ghost use Rattle.plan_model.specs.net_order.Closure.{IsClosure};

use crate::Pair;
use crate::net_order::child_set::ChildSet;
use crate::net_order::closure::close;
use crate::net_order::cycle::first_closing;
use crate::net_order::direct::direct_sets;
use crate::net_order::line::line_of;
use crate::net_order::order::OrderError;
use htn_base::List;
use std::alloc::Global;

/// For each child the set of those that precede it, and the line.
pub fn sorted(
    alloc: Global,
    count: usize,
    pairs: &[Pair],
) -> Result<(Vec<ChildSet>, List<u32>), OrderError>
    requires small { count < 2 ^ 32 }
    requires below { AreBelow count pairs.now }
    requires few { length pairs.now < 2 ^ 32 }
    ensures closure { IfOk result (λ made. IsClosure count pairs.now made.0.items) }
    ensures line { IfOk result (λ made. IsLine (Pairs pairs.now) count made.1) }
    ensures refused { IfErr result (IsRefusedBy pairs.now) }
{
    let mut before = direct_sets(alloc, count, pairs)?;
    let line = line_of(alloc, before.as_slice())?;
    if line.len() < count {
        drop(before);
        let pair = first_closing(alloc, count, pairs)?;
        return Err(OrderError::Cycle { pair });
    }
    close(alloc, &mut before, line.as_slice())?;
    Ok((before, line))
}
