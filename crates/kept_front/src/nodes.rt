ghost use Rattle.std.specs.Prelude.{ℕ, ◌≡◌, ◌≢◌, ◌+◌, ◌<◌, ◌^◌, length, OnOk};
ghost use Rattle.kept_front.specs.Nodes as spec;

use htn_base::Memory;
use std::alloc::Global;

/// What is kept of a growth: the slots of its children, and how many of these are not whole.
pub struct Node {
    slots: Vec<u32>,
    unfinished: u32,
}

impl Drop for Node {
    fn drop(self) {
        let Node {
            slots: _,
            unfinished: _,
        } = self;
    }
}

/// What is kept of the growths, by their places.
pub struct Nodes {
    by_growth: Vec<Node>,
}

impl Drop for Nodes {
    fn drop(self) {
        let Nodes { by_growth: _ } = self;
    }
}

impl Nodes {
    /// Of no growths.
    pub(crate) fn none(alloc: Global) -> Nodes
        ensures { spec.count result ≡ 0 }
    {
        Nodes {
            by_growth: Vec::new(alloc),
        }
    }

    /// One more growth, whose children have these slots; none of them is whole.
    pub(crate) fn push(&mut self, slots: Vec<u32>) -> Result<(), Memory>
        requires few { length slots.items < 2 ^ 32 }
        ensures pushed { OnOk result (spec.IsPushed slots.items self.old self.new) }
    {
        let unfinished = slots.len() as u32;
        self.by_growth.push(Node { slots, unfinished })?;
        Ok(())
    }

    /// The number of growths.
    pub(crate) fn len(&self) -> usize
        ensures { result ≡ spec.count self.now }
    {
        self.by_growth.len()
    }

    /// How many children of the growth are not whole.
    pub(crate) fn unfinished(&self, growth: u32) -> u32
        ensures { result ≡ spec.unfinished_at self.now growth }
    {
        match self.by_growth.get(growth as usize) {
            Some(node) => node.unfinished,
            None => 0,
        }
    }

    /// The slot of a child of the growth.
    pub(crate) fn child_slot(&self, growth: u32, child: u32) -> u32
        ensures { result ≡ spec.child_slot self.now growth child }
    {
        match self.by_growth.get(growth as usize) {
            Some(node) => match node.slots.get(child as usize) {
                Some(slot) => *slot,
                None => 0,
            },
            None => 0,
        }
    }

    /// One child of the growth less is not whole.
    pub(crate) fn lower(&mut self, growth: u32)
        requires some { 0 < spec.unfinished_at self.old growth }
        ensures count { spec.count self.new ≡ spec.count self.old }
        ensures here { spec.unfinished_at self.old growth ≡ spec.unfinished_at self.new growth + 1 }
        ensures others { (k : ℕ) → k ≢ growth → spec.unfinished_at self.new k ≡ spec.unfinished_at self.old k }
        ensures slots { (k j : ℕ) → spec.child_slot self.new k j ≡ spec.child_slot self.old k j }
    {
        if (growth as usize) < self.by_growth.len() {
            self.by_growth[growth as usize].unfinished -= 1;
        }
    }
}
