ghost use Rattle.std.specs.Prelude.{ℕ, List as Items, ◌≡◌, ◌↔◌, map, slice_index, Some, IfOk};
ghost use Rattle.std.specs.Option.{option_copied};
ghost use Rattle.plan_model.specs.task_networks.Tree.{Tree as DecompositionTree, Address};
ghost use Rattle.plan_model.specs.plan_meaning.Network.{network};
ghost use Rattle.schedule_queue.specs.Given as spec;

use crate::children::Children;
use htn_base::Memory;
use kept_front::Later;
use plan_model::Compiled;
use std::alloc::Global;
use tree_core::{Label, Tree};

/// What an order is made of: a tree of a problem, what comes right after each child of a method, the primitives in their order, the
/// gap of each node, and the children of each.
#[derive(Clone, Copy)]
pub(crate) struct Given<'a> {
    pub(crate) c: &'a Compiled,
    pub(crate) later: &'a [Later],
    pub(crate) tree: &'a Tree,
    pub(crate) actions: &'a [u32],
    pub(crate) gaps: &'a [u32],
    pub(crate) children: &'a Children,
}

impl Given<'_> {
    /// The gap in which the node waits. `None` where it is a primitive.
    pub(crate) fn waits_in(&self, address: u32) -> Option<u32>
        ensures { (gap : ℕ) → (result ≡ Some gap) ↔ spec.WaitsIn self.now.actions.now self.now.gaps.now address gap }
    {
        let gap = *self.gaps.get(address as usize)?;
        match self.actions.get(gap as usize) {
            Some(action) if *action == address => None,
            _ => Some(gap),
        }
    }

    /// What comes right after and before each child of the node, where it is decomposed.
    fn known(&self, address: u32) -> Option<&Later>
        ensures { option_copied result ≡ spec.later_at self.now.later.now self.now.tree.now address }
    {
        match self.tree.label(address)? {
            Label::Abstract { method, .. } => self.later.get(*method as usize),
            _ => None,
        }
    }

    /// The siblings that come right after the node.
    pub(crate) fn right_after(&self, alloc: Global, address: u32) -> Result<Vec<u32>, Memory>
        ensures { IfOk result (λ after. (T : DecompositionTree (network self.now.c.now)) (plan : Items Address) (gap : Address → ℕ)
            → spec.IsGiven self.now T plan gap → spec.AreRightAfter (network self.now.c.now) T address after.items) }
    {
        let Some(parent) = self.tree.parent(address) else {
            return Ok(Vec::new(alloc));
        };
        let Some(number) = self.tree.number(address) else {
            return Ok(Vec::new(alloc));
        };
        match self.known(parent) {
            Some(later) => at(alloc, self.children.below(parent), later.after(number)),
            None => Ok(Vec::new(alloc)),
        }
    }

    /// How many siblings come right before the node.
    pub(crate) fn right_before(&self, address: u32) -> u32
        ensures { (T : DecompositionTree (network self.now.c.now)) (plan : Items Address) (gap : Address → ℕ)
            → spec.IsGiven self.now T plan gap → spec.AreRightBefore (network self.now.c.now) T address result }
    {
        let Some(parent) = self.tree.parent(address) else {
            return 0;
        };
        let Some(number) = self.tree.number(address) else {
            return 0;
        };
        match self.known(parent) {
            Some(later) => later.before(number),
            None => 0,
        }
    }
}

/// What stands at these numbers.
fn at(alloc: Global, addresses: &[u32], numbers: &[u32]) -> Result<Vec<u32>, Memory>
    ensures { IfOk result (λ found. found.items ≡ map (λ number. slice_index addresses.now number) numbers.now) }
{
    let mut found = Vec::with_capacity(alloc, numbers.len())?;
    for number in numbers {
        found.push(match addresses.get(*number as usize) {
            Some(address) => *address,
            None => 0,
        })?;
    }
    Ok(found)
}
