ghost use Rattle.std.specs.Prelude.{◌≡◌, ◌<◌, ◌≤◌, ℕ, length, IfOk, IfErr};
ghost use Rattle.plan_model.specs.declared.networks.Head.TheVariants.{Task};
ghost use Rattle.plan_model.specs.net_order.Meaning.{IsOrderOf};
ghost use Rattle.bound_calc.specs.stratifier.Conditions.{IsOrdered, IsSmallMethod};
ghost use Rattle.bound_calc.specs.Blocks.{head_number, IsGreatest, IsGreatestOrPast, IsPastBy};
ghost use Rattle.bound_calc.specs.ByRank.{AreRanked, HaveNumbers};
ghost use Rattle.bound_calc.specs.Lines.{HasLine};

use crate::groups::BoundError;
use crate::stratifier::Ranks;
use plan_model::net_order::{Order, OrderError};
use plan_model::{Head, MethodPlan};
use std::alloc::Global;

/// The greatest number of a block of the method, or 1 where that is less.
pub fn method_number(
    alloc: Global,
    plan: &MethodPlan,
    r: &Ranks,
    numbers: &[u128],
) -> Result<u128, BoundError>
    requires small { IsSmallMethod plan.now }
    requires ordered { IsOrdered plan.now }
    requires line { HasLine plan.now }
    requires ranked { AreRanked r.now plan.now }
    requires numbers { HaveNumbers r.now numbers.now }
    ensures greatest { IfOk result (IsGreatest r.now numbers.now plan.now) }
    ensures past { IfErr result (IsPastBy r.now numbers.now plan.now) }
{
    let count = plan.schema.children.len() as u32;
    match Order::new(alloc, count, plan.schema.pairs.as_slice()) {
        Ok(order) => {
            let greatest = greatest_block(&order, plan, r, numbers);
            drop(order);
            greatest.ok_or(BoundError::Past128)
        }
        Err(OrderError::Memory) => Err(BoundError::Memory),
        Err(OrderError::Cycle { .. }) => unreachable!(),
    }
}

/// The greatest number of a block, or 1 where that is less; `None` where one is past 128 bits. At each place of the
/// line what counts are the children of the block so far and all that stand behind.
fn greatest_block(order: &Order, plan: &MethodPlan, r: &Ranks, numbers: &[u128]) -> Option<u128>
    requires small { IsSmallMethod plan.now }
    requires order { IsOrderOf (length plan.now.schema.children) plan.now.schema.pairs order.now }
    requires line { HasLine plan.now }
    requires ranked { AreRanked r.now plan.now }
    requires numbers { HaveNumbers r.now numbers.now }
    ensures greatest { IsGreatestOrPast r.now numbers.now plan.now result }
{
    let children = plan.schema.children.as_slice();
    let line = plan.line.as_slice();
    let mut greatest = 1;
    let mut pending = line.len() as u128;
    for (k, child) in line.iter().enumerate() {
        if k > 0 && order.cut(k as u32) {
            pending = (line.len() - k) as u128;
        }
        let number = number_of(&children[*child as usize].head, r, numbers);
        pending = pending.checked_add(number - 1)?;
        greatest = pending.max(greatest);
    }
    Some(greatest)
}

/// What a child counts: the number of its task's group, and 1 where it is no task.
fn number_of(head: &Head, r: &Ranks, numbers: &[u128]) -> u128
    requires ranked { (t : ℕ) → head.now ≡ Task t → t < length r.now.numbers.items }
    requires numbers { HaveNumbers r.now numbers.now }
    ensures number { result ≡ head_number r.now numbers.now head.now }
    ensures positive { 1 ≤ result }
{
    match head {
        Head::Task(task) => numbers[r.group(*task) as usize],
        Head::Action(_) | Head::Check => 1,
    }
}
