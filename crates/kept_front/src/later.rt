ghost use Rattle.std.specs.Prelude.{◌≡◌, ◌<◌, ◌^◌, length, IfOk};
ghost use Rattle.plan_model.specs.net_order.Meaning.{AreBelow};
ghost use Rattle.kept_front.specs.Later as spec;

use htn_base::{List, Memory};
use plan_model::{Compiled, MethodPlan};
use std::alloc::Global;

/// For each child of a network those that it comes right before, and how many come right before it.
pub struct Later {
    by_child: Vec<List<u32>>,
    counts: Vec<u32>,
}

impl Drop for Later {
    fn drop(self) {
        let Later {
            by_child: _,
            counts: _,
        } = self;
    }
}

impl Later {
    /// Those of a method.
    pub fn of(alloc: Global, plan: &MethodPlan) -> Result<Later, Memory>
        requires below { AreBelow (length plan.now.schema.children) plan.now.schema.pairs }
        requires few { length plan.now.schema.pairs < 2 ^ 32 }
        ensures later { IfOk result (spec.AreLater plan.now.schema.pairs) }
    {
        let mut by_child = Vec::new(alloc);
        while by_child.len() < plan.schema.children.len() {
            by_child.push(List::new(alloc))?;
        }
        let mut counts = vec![in alloc; 0_u32; plan.schema.children.len()]?;
        for pair in plan.schema.pairs.as_slice() {
            by_child[pair.first as usize].push(pair.then)?;
            counts[pair.then as usize] += 1;
        }
        Ok(Later { by_child, counts })
    }

    /// Those of each method, by its place.
    pub fn all(alloc: Global, c: &Compiled) -> Result<List<Later>, Memory>
        requires pairs { spec.HasSoundPairs c.now }
        ensures { IfOk result (spec.AreAllLater c.now) }
    {
        let mut laters = List::new(alloc);
        for plan in c.methods.as_slice() {
            laters.put(Later::of(alloc, plan))?;
        }
        Ok(laters)
    }

    /// Those that the child comes right before.
    pub fn after(&self, child: u32) -> &[u32]
        ensures { result.now ≡ spec.after self.now child }
    {
        match self.by_child.get(child as usize) {
            Some(list) => list.as_slice(),
            None => &[],
        }
    }

    /// How many come right before the child.
    pub fn before(&self, child: u32) -> u32
        ensures { result ≡ spec.before self.now child }
    {
        match self.counts.get(child as usize) {
            Some(count) => *count,
            None => 0,
        }
    }
}
