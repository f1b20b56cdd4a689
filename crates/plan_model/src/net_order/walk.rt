ghost use Rattle.std.specs.Prelude.{◌≡◌, ◌<◌, ◌^◌, ◌↔◌, false, length, IsTrue, IfOk};
ghost use Rattle.plan_model.specs.task_networks.Order.{IsAcyclic};
ghost use Rattle.plan_model.specs.net_order.Marks.{Marked, IsSquare, IsWithin};
ghost use Rattle.plan_model.specs.net_order.Walk.{IsSettled, Reaches};

use crate::net_order::child_set::ChildSet;
use htn_base::Memory;
use std::alloc::Global;

/// Whether no child precedes itself: a walk that lists each child once all its predecessors are listed.
pub fn is_acyclic(alloc: Global, before: &[ChildSet]) -> Result<bool, Memory>
    requires square { IsSquare (length before.now) before.now }
    requires small { length before.now < 2 ^ 32 }
    ensures acyclic { IfOk result (λ told. IsTrue told ↔ IsAcyclic (Marked before.now)) }
{
    let mut entered = ChildSet::new(alloc, before.len())?;
    let mut listed = ChildSet::new(alloc, before.len())?;
    for child in 0..before.len() {
        if !reach(alloc, before, child as u32, &mut entered, &mut listed)? {
            return Ok(false);
        }
    }
    Ok(true)
}

/// Lists the child and all that precede it. False where the path of predecessors comes back to a child on it.
fn reach(
    alloc: Global,
    before: &[ChildSet],
    child: u32,
    entered: &mut ChildSet,
    listed: &mut ChildSet,
) -> Result<bool, Memory>
    requires square { IsSquare (length before.now) before.now }
    requires small { length before.now < 2 ^ 32 }
    requires child { child < length before.now }
    requires settled { IsSettled before.now listed.old }
    requires room { length entered.old ≡ length before.now }
    requires entered { IsWithin entered.old listed.old }
    ensures reached { IfOk result (Reaches before.now child listed.old listed.new entered.new) }
    ensures cyclic { IfOk result (λ told. told ≡ false → IsAcyclic (Marked before.now) → ⊥) }
{
    let mut path = Vec::new(alloc);
    entered.insert(child as usize);
    path.push(child)?;
    while let Some(last) = path.pop() {
        match before[last as usize].first_outside(listed, 0) {
            None => listed.insert(last as usize),
            Some(other) => {
                if entered.contains(other) {
                    return Ok(false);
                }
                entered.insert(other);
                path.push(last)?;
                path.push(other as u32)?;
            }
        }
    }
    Ok(true)
}
