//! Whether the methods of a compiled problem are such that it has strata or a named cycle, and with strata a bound.

ghost use Rattle.std.specs.Prelude.{◌<◌, ◌↔◌, All, IsTrue, IfOk, length};
ghost use Rattle.plan_model.specs.Pairs.{Pairs};
ghost use Rattle.plan_model.specs.declared.networks.Child.{Child as Work};
ghost use Rattle.plan_model.specs.task_networks.Order.{IsAcyclic};
ghost use Rattle.plan_model.specs.net_order.Meaning.{AreBelow};
ghost use Rattle.bound_calc.specs.stratifier.Conditions.{IsSmallMethod};
ghost use Rattle.bound_calc.specs.Lines.{HasLine};
ghost use Rattle.printed_rows.specs.Ready.{AreReady, IsReady, IsUpTo};

use htn_base::Memory;
use plan_model::net_order::{Order, OrderError};
use plan_model::{Child, Compiled, Head, MethodPlan, Pair};
use std::alloc::Global;

/// True only where strata and the bound can be asked for.
pub fn are_ready(alloc: Global, c: &Compiled) -> Result<bool, Memory>
    ensures ready { IfOk result (λ ready. IsTrue ready → AreReady c.now) }
{
    let top = c.hddl.tasks.len();
    if top > 0xffff_ffff || c.methods.len() > 0xffff_ffff {
        return Ok(false);
    }
    for plan in c.methods.as_slice() {
        if !is_ready(alloc, top as u32, plan)? {
            return Ok(false);
        }
    }
    Ok(true)
}

/// True only where the method's tasks are at most the top one, and its pairs are of its children, have no cycle and
/// make its line.
fn is_ready(alloc: Global, top: u32, plan: &MethodPlan) -> Result<bool, Memory>
    ensures ready { IfOk result (λ ready. IsTrue ready → IsReady top plan.now) }
{
    let children = plan.schema.children.as_slice();
    let pairs = plan.schema.pairs.as_slice();
    let numbered = plan.schema.task <= top && are_up_to(top, children);
    let small = children.len() <= 4097 && pairs.len() <= 0xffff_ffff;
    if numbered && small && are_below(children.len() as u32, pairs) {
        has_line(alloc, plan)
    } else {
        Ok(false)
    }
}

fn are_up_to(top: u32, children: &[Child]) -> bool
    ensures { IsTrue result ↔ All (λ (child : Work). IsUpTo top child.head) children.now }
{
    children.iter().all(|child| is_up_to(top, &child.head))
}

fn is_up_to(top: u32, head: &Head) -> bool
    ensures { IsTrue result ↔ IsUpTo top head.now }
{
    match head {
        Head::Task(task) => *task <= top,
        Head::Action(_) | Head::Check => true,
    }
}

pub fn are_below(count: u32, pairs: &[Pair]) -> bool
    ensures { IsTrue result ↔ AreBelow count pairs.now }
{
    pairs
        .iter()
        .all(|pair| pair.first < count && pair.then < count)
}

/// True only where the method's line is that of its children.
fn has_line(alloc: Global, plan: &MethodPlan) -> Result<bool, Memory>
    requires small { IsSmallMethod plan.now }
    requires below { AreBelow (length plan.now.schema.children) plan.now.schema.pairs }
    ensures acyclic { IfOk result (λ same. IsTrue same → IsAcyclic (Pairs plan.now.schema.pairs)) }
    ensures line { IfOk result (λ same. IsTrue same → HasLine plan.now) }
{
    let count = plan.schema.children.len() as u32;
    match Order::new(alloc, count, plan.schema.pairs.as_slice()) {
        Ok(order) => {
            let same = order.line().as_slice() == plan.line.as_slice();
            drop(order);
            Ok(same)
        }
        Err(OrderError::Cycle { .. }) => Ok(false),
        Err(OrderError::Memory) => Err(Memory),
    }
}
