ghost use Rattle.std.specs.Prelude.{ℕ, ◌≡◌, ◌≢◌, ◌+◌, ◌≤◌, ◌<◌, ◌^◌, length, All, IfOk, None};
ghost use Rattle.std.specs.Option.{option_copied};
ghost use Rattle.htn_base.specs.Different.{AreDifferent};
ghost use Rattle.kept_front.specs.Leaves as spec;
ghost use Rattle.kept_front.specs.Planted.{ArePlanted, AreRegrown};

use crate::later::Later;
use htn_base::Memory;
use std::alloc::Global;

/// An open leaf: the place of its parent among the growths, its number among the parent's children, and how many of those
/// that come right before it are not whole. The root has no parent, and the number 0.
#[derive(Clone, Copy)]
pub struct Leaf {
    pub parent: Option<u32>,
    pub child: u32,
    pub blocked: u32,
}

/// The open leaves by their slots, which count from 1.
pub struct Leaves {
    by_slot: Vec<Option<Leaf>>,
}

impl Drop for Leaves {
    fn drop(self) {
        let Leaves { by_slot: _ } = self;
    }
}

impl Leaves {
    /// No leaves, in so many slots.
    pub(crate) fn none(alloc: Global, slots: usize) -> Result<Leaves, Memory>
        ensures room { IfOk result (λ leaves. spec.room leaves ≡ slots) }
        ensures none { IfOk result (λ leaves. (x : ℕ) → spec.leaf_at leaves x ≡ None) }
    {
        let by_slot = vec![in alloc; None; slots]?;
        Ok(Leaves { by_slot })
    }

    /// What the slot holds.
    pub fn at(&self, slot: u32) -> Option<Leaf>
        ensures leaf { result ≡ spec.leaf_at self.now slot }
    {
        if slot == 0 {
            return None;
        }
        match self.by_slot.get(slot as usize - 1) {
            Some(leaf) => *leaf,
            None => None,
        }
    }

    /// Puts this into the slot.
    pub(crate) fn put(&mut self, slot: u32, leaf: Option<Leaf>)
        requires slot { (1 ≤ slot) × (slot ≤ spec.room self.old) }
        ensures room { spec.room self.new ≡ spec.room self.old }
        ensures here { spec.leaf_at self.new slot ≡ leaf }
        ensures others { (x : ℕ) → x ≢ slot → spec.leaf_at self.new x ≡ spec.leaf_at self.old x }
    {
        self.by_slot[slot as usize - 1] = leaf;
    }

    /// One less that comes right before what the slot holds is not whole.
    pub(crate) fn lower(&mut self, slot: u32)
        requires some { 0 < spec.blocked_at self.old slot }
        ensures room { spec.room self.new ≡ spec.room self.old }
        ensures here { spec.blocked_at self.old slot ≡ spec.blocked_at self.new slot + 1 }
        ensures others { (x : ℕ) → x ≢ slot → spec.leaf_at self.new x ≡ spec.leaf_at self.old x }
        ensures places { (x : ℕ) → spec.place_at self.new x ≡ spec.place_at self.old x }
    {
        if let Some(leaf) = self.at(slot) {
            let blocked = leaf.blocked - 1;
            self.put(slot, Some(Leaf { blocked, ..leaf }));
        }
    }

    /// Puts the children of a growth into these slots, each with the number of those that come right before it.
    pub(crate) fn plant(&mut self, growth: u32, slots: &[u32], later: &Later)
        requires slots { All (λ x. (1 ≤ x) × (x ≤ spec.room self.old)) slots.now }
        requires different { AreDifferent slots.now }
        requires few { length slots.now < 2 ^ 32 }
        ensures room { spec.room self.new ≡ spec.room self.old }
        ensures planted { ArePlanted growth slots.now later.now self.old self.new (length slots.now) }
    {
        for (child, slot) in slots.iter().enumerate() {
            let child = child as u32;
            let leaf = Leaf {
                parent: Some(growth),
                child,
                blocked: later.before(child),
            };
            self.put(*slot, Some(leaf));
        }
    }

    /// The leaf of a slot grows: its slot is given up, and its children are put into theirs.
    #[tactic(auto, using(crate::proofs::Planting::regrown, crate::proofs::Planting::given_up))]
    pub(crate) fn regrow(&mut self, slot: u32, growth: u32, slots: &[u32], later: Option<&Later>)
        requires slot { (1 ≤ slot) × (slot ≤ spec.room self.old) }
        requires slots { All (λ x. (1 ≤ x) × (x ≤ spec.room self.old)) slots.now }
        requires different { AreDifferent slots.now }
        requires few { length slots.now < 2 ^ 32 }
        ensures room { spec.room self.new ≡ spec.room self.old }
        ensures grown { AreRegrown slot growth slots.now (option_copied later.entry) self.old self.new }
    {
        self.put(slot, None);
        if let Some(later) = later {
            self.plant(growth, slots, later);
        }
    }
}
