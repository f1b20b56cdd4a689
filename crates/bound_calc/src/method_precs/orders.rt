ghost use Rattle.std.specs.Prelude.{◌≡◌, ◌+◌, ◌≤◌, ◌<◌, ◌^◌, IfOk, length};
ghost use Rattle.htn_base.specs.Limits.{most_subtasks};
ghost use Rattle.plan_model.specs.task_networks.Order.{IsAcyclic};
ghost use Rattle.plan_model.specs.Pairs.{Pairs};
ghost use Rattle.plan_model.specs.net_order.Meaning.{AreBelow};
ghost use Rattle.bound_calc.specs.method_precs.Ordered.{IsOrdered, IsOrderedBy};

use htn_base::{List, Memory};
use plan_model::Pair;
use plan_model::net_order::{Order, OrderError};
use std::alloc::Global;

/// The children of a network by their order.
pub struct Ordered {
    line: List<u32>,
    heir: Option<u32>,
    copiers: List<u32>,
}

impl Drop for Ordered {
    fn drop(self) {
        let Ordered {
            line: _,
            heir: _,
            copiers: _,
        } = self;
    }
}

impl Ordered {
    /// The line of so many children, its last child, and the other maximal ones.
    pub fn new(alloc: Global, count: u32, pairs: &[Pair]) -> Result<Ordered, Memory>
        requires small { count ≤ most_subtasks + 1 }
        requires within { AreBelow count pairs.now }
        requires few { length pairs.now < 2 ^ 32 }
        requires acyclic { IsAcyclic (Pairs pairs.now) }
        ensures ordered { IfOk result (IsOrdered count pairs.now) }
    {
        match Order::new(alloc, count, pairs) {
            Ok(order) => {
                let ordered = Ordered::of(alloc, &order, count);
                drop(order);
                ordered
            }
            Err(OrderError::Memory) => Err(Memory),
            Err(OrderError::Cycle { .. }) => unreachable!(),
        }
    }

    /// The line, the heir and the copiers.
    pub fn into_parts(self) -> (List<u32>, Option<u32>, List<u32>)
        ensures { result ≡ (self.line, self.heir, self.copiers) }
    {
        let Ordered {
            line,
            heir,
            copiers,
        } = self;
        (line, heir, copiers)
    }

    /// What the order of so many children answers.
    fn of(alloc: Global, order: &Order, count: u32) -> Result<Ordered, Memory>
        requires children { order.now.count ≡ count }
        ensures ordered { IfOk result (IsOrderedBy order.now count) }
    {
        let heir = order.heir();
        let mut copiers = List::new(alloc);
        for child in 0..count {
            if heir != Some(child) && order.maximal(child) {
                copiers.push(child)?;
            }
        }
        Ok(Ordered {
            line: order.line().copy(alloc)?,
            heir,
            copiers,
        })
    }
}
