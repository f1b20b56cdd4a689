ghost use Rattle.std.specs.Prelude.{◌≡◌, ◌<◌, ◌+◌, ◌^◌, slice_index, slice_set, IfOk, OnOk};
ghost use Rattle.slot_speller.specs.Slots as spec;

use crate::children::{after, plan_of};
use crate::free::Free;
use htn_base::Memory;
use plan_model::Compiled;
use std::alloc::Global;
use tree_core::{Scheduled, Tree};

/// The slots of nodes by their addresses, 0 where a node has none yet, and which slots are free.
pub struct Slots {
    by_node: Vec<u32>,
    free: Free,
}

impl Drop for Slots {
    fn drop(self) {
        let Slots {
            by_node: _,
            free: _,
        } = self;
    }
}

impl Slots {
    /// The slots of all nodes of a run.
    pub(crate) fn of(alloc: Global, c: &Compiled, run: &Scheduled) -> Result<Slots, Memory>
        ensures { IfOk result (spec.AreSlotsOf c.now run.now) }
    {
        let mut slots = Slots::first(alloc, run.tree.size() as usize)?;
        for node in run.order.as_slice() {
            slots.take(c, &run.tree, *node)?;
        }
        Ok(slots)
    }

    /// The slots of a tree of so many nodes of which none is taken: the root has slot 1.
    fn first(alloc: Global, size: usize) -> Result<Slots, Memory>
        ensures { IfOk result (spec.AreFirst size) }
    {
        let mut by_node = vec![in alloc; 0_u32; size]?;
        if size > 0 {
            by_node[0] = 1;
        }
        Ok(Slots {
            by_node,
            free: Free::but_first(alloc),
        })
    }

    /// The slot of a node, or 0 where it has none.
    pub(crate) fn at(&self, node: u32) -> u32
        ensures { result ≡ slice_index self.now.by_node.items node }
    {
        match self.by_node.get(node as usize) {
            Some(slot) => *slot,
            None => 0,
        }
    }

    /// The greatest slot.
    pub(crate) fn width(&self) -> u32
        ensures { result ≡ self.now.free.greatest }
    {
        self.free.greatest()
    }

    /// The node has this slot.
    fn put(&mut self, node: u32, slot: u32)
        ensures nodes { self.new.by_node.items ≡ slice_set self.old.by_node.items node slot }
        ensures free { self.new.free ≡ self.old.free }
    {
        if (node as usize) < self.by_node.len() {
            self.by_node[node as usize] = slot;
        }
    }

    /// The node is taken: its children get their slots, and where it has none, its own is free.
    fn take(&mut self, c: &Compiled, tree: &Tree, node: u32) -> Result<(), Memory>
        ensures { OnOk result (spec.TakesNode c.now tree.now node self.old self.new) }
    {
        let slot = self.at(node);
        match plan_of(c, tree, node) {
            Some(plan) => match plan.heir {
                Some(heir) => self.plant(tree, node, slot, heir, plan.schema.children.len()),
                None => self.free.give(slot),
            },
            None => self.free.give(slot),
        }
    }

    /// The children of a node get their slots: the heir that of the node, the others the lowest free ones.
    fn plant(
        &mut self,
        tree: &Tree,
        node: u32,
        slot: u32,
        heir: u32,
        count: usize,
    ) -> Result<(), Memory>
        requires { node + 1 < 2 ^ 32 }
        ensures { OnOk result (spec.Plants tree.now node slot heir count self.old self.new) }
    {
        let mut child = node + 1;
        for number in 0..count {
            let own = if number == heir as usize {
                slot
            } else {
                self.free.take()?
            };
            self.put(child, own);
            child = after(tree, child);
        }
        Ok(())
    }
}
