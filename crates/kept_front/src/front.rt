ghost use Rattle.std.specs.Prelude.{ℕ, List as Items, ◌≡◌, ◌↔◌, ◌≤◌, ◌<◌, ◌^◌, ◌+◌, ◌++◌, ◌∷◌, [], length, IsTrue, All, IfOk, OnOk};
ghost use Rattle.htn_base.specs.Different.{AreDifferent};
ghost use Rattle.std.specs.Option.{option_copied};
ghost use Rattle.plan_model.specs.task_networks.Spelling.{Act};
ghost use Rattle.plan_model.specs.task_networks.Lawful.{IsLawful};
ghost use Rattle.plan_model.specs.plan_meaning.Network.{network};
ghost use Rattle.plan_model.specs.declared.values.Compiled.{Compiled as compiled};
ghost use Rattle.kept_front.specs.Leaves.{leaf_at, room};
ghost use Rattle.kept_front.specs.Later.{AreAllLater};
ghost use Rattle.kept_front.specs.Nodes as nodes;
ghost use Rattle.kept_front.specs.Works.{work_of};
ghost use Rattle.kept_front.specs.Fronts as spec;

use crate::later::Later;
use crate::leaves::{Leaf, Leaves};
use crate::nodes::Nodes;
use crate::slots::child_slots;
use crate::works::WorkKind;
use htn_base::{List, Memory};
use plan_model::Compiled;
use std::alloc::Global;
use tree_core::{Growth, Label};

/// All that is kept of a front: the open leaves by their slots, what is kept of the growths, and the growths.
pub struct Front {
    leaves: Leaves,
    nodes: Nodes,
    growths: List<Growth>,
}

impl Drop for Front {
    fn drop(self) {
        let Front {
            leaves: _,
            nodes: _,
            growths: _,
        } = self;
    }
}

impl Front {
    /// The front of the top task alone, in slot 1 of so many.
    pub fn new(alloc: Global, slots: u32) -> Result<Front, Memory>
        requires some { 1 ≤ slots }
        ensures sized { IfOk result (spec.IsSized slots) }
        ensures first { IfOk result (λ front. (c : compiled) → spec.IsFirstOf c front) }
    {
        let mut leaves = Leaves::none(alloc, slots as usize)?;
        let top = Leaf {
            parent: None,
            child: 0,
            blocked: 0,
        };
        leaves.put(1, Some(top));
        Ok(Front {
            leaves,
            nodes: Nodes::none(alloc),
            growths: List::new(alloc),
        })
    }

    /// What the slot holds.
    pub fn leaf(&self, slot: u32) -> Option<Leaf>
        ensures { result ≡ leaf_at self.now.leaves slot }
    {
        self.leaves.at(slot)
    }

    /// Whether the open leaf is this, with these objects.
    pub fn holds(&self, c: &Compiled, leaf: Leaf, kind: WorkKind, objects: &[u32]) -> bool
        ensures { IsTrue result ↔ (spec.work_at c.now self.now leaf ≡ work_of kind objects.now) }
    {
        let Some(parent) = leaf.parent else {
            return kind.is_task(c.hddl.tasks.len(), objects);
        };
        match self.growths.get(parent as usize) {
            Some(growth) => kind.is_below(c, &growth.label, leaf.child, objects),
            None => kind.is_task(0, objects),
        }
    }

    /// The growths so far, in the order of the acts.
    pub fn growths(&self) -> &[Growth]
        ensures { result.now ≡ self.now.growths }
    {
        self.growths.as_slice()
    }

    /// The growths alone.
    pub fn into_growths(self) -> List<Growth>
        ensures { result ≡ self.growths }
    {
        let Front {
            leaves,
            nodes,
            growths,
        } = self;
        drop(leaves);
        drop(nodes);
        growths
    }

    /// The slot of a child of the growth, which is decomposed. Otherwise 0.
    pub fn child_slot(&self, growth: u32, child: u32) -> u32
        ensures { result ≡ nodes.child_slot self.now.nodes growth child }
    {
        self.nodes.child_slot(growth, child)
    }

    /// A child of the parent has become whole: those that come right after it, and the parent, have one less to wait for.
    fn lower(&mut self, parent: u32, later: &[u32])
        requires may { spec.MayLower parent later.now self.old }
        ensures lowered { spec.IsLowered parent later.now self.old self.new }
        ensures sized { spec.StaysSized self.old self.new }
    {
        for child in later {
            let slot = self.nodes.child_slot(parent, *child);
            self.leaves.lower(slot);
        }
        self.nodes.lower(parent);
    }

    /// The place of the growth's parent. `None` where the growth is that of the root.
    fn parent(&self, growth: u32) -> Option<u32>
        ensures { result ≡ spec.parent_at self.now growth }
    {
        self.growths.get(growth as usize)?.parent
    }

    /// The growth's number among the children of its parent.
    fn child(&self, growth: u32) -> u32
        ensures { result ≡ spec.child_at self.now growth }
    {
        match self.growths.get(growth as usize) {
            Some(growth) => growth.child,
            None => 0,
        }
    }

    /// What comes right after each child of the growth, where it is a task that is decomposed by a method.
    fn later<'l>(&self, growth: u32, later: &'l [Later]) -> Option<&'l Later>
        ensures { option_copied result ≡ spec.later_at later.now self.now growth }
    {
        match &self.growths.get(growth as usize)?.label {
            Label::Abstract { method, .. } => later.get(*method as usize),
            _ => None,
        }
    }

    /// What stands at the growth has become whole. From there it goes up, as far as parents become whole.
    fn walk(&mut self, c: &Compiled, later: &[Later], growth: u32)
        requires lawful { IsLawful (network c.now) }
        requires later { AreAllLater c.now later.now }
        requires whole { spec.IsSomeWholeAt c.now self.old growth }
        ensures growths { self.new.growths ≡ self.old.growths }
        ensures sized { spec.StaysSized self.old self.new }
        ensures front { (b : ℕ) (acts : Items (Act (network c.now))) (a : Act (network c.now))
            → spec.IsWholeAt c.now b self.old growth acts a → spec.IsFrontOf c.now b self.new (acts ++ a ∷ []) }
    {
        let mut whole = growth;
        while let Some(parent) = self.parent(whole) {
            let child = self.child(whole);
            let Some(later) = self.later(parent, later) else {
                return;
            };
            self.lower(parent, later.after(child));
            if self.nodes.unfinished(parent) > 0 {
                return;
            }
            whole = parent;
        }
    }

    /// The leaf of the slot grows, and its children stand in these slots.
    fn grow(
        &mut self,
        leaf: Leaf,
        slot: u32,
        slots: Vec<u32>,
        label: Label,
        later: Option<&Later>,
    ) -> Result<(), Memory>
        requires slot { (1 ≤ slot) × (slot ≤ room self.old.leaves) }
        requires slots { All (λ x. (1 ≤ x) × (x ≤ room self.old.leaves)) slots.items }
        requires different { AreDifferent slots.items }
        requires few { length slots.items < 2 ^ 32 }
        requires few_growths { length self.old.growths < 2 ^ 32 }
        ensures { OnOk result (spec.IsGrownAt leaf slot slots.items label (option_copied later.entry) self.old self.new) }
    {
        let growth = self.growths.len() as u32;
        self.leaves.regrow(slot, growth, slots.as_slice(), later);
        self.nodes.push(slots)?;
        self.growths.push(Growth {
            parent: leaf.parent,
            child: leaf.child,
            label,
        })?;
        Ok(())
    }

    /// Takes an act at the slot, with these new slots: its leaf grows, with this label. Where there are no children, it goes up
    /// as far as what stands above becomes whole. After an `Err` the front is of no use.
    pub fn take(
        &mut self,
        alloc: Global,
        c: &Compiled,
        later: &[Later],
        slot: u32,
        new: &[u32],
        label: Label,
    ) -> Result<(), Memory>
        requires lawful { IsLawful (network c.now) }
        requires later { AreAllLater c.now later.now }
        requires few_new { length new.now + 1 < 2 ^ 32 }
        requires few_growths { length self.old.growths < 2 ^ 32 }
        requires may { spec.MayTakeSome c.now self.old slot new.now label }
        ensures grown { OnOk result (spec.HasGrown label self.old self.new) }
        ensures sized { OnOk result (spec.StaysSized self.old self.new) }
        ensures taken { OnOk result ((b : ℕ) (acts : Items (Act (network c.now))) (a : Act (network c.now))
            → spec.MayTakeAt c.now b self.old acts a slot new.now label → spec.IsFrontOf c.now b self.new (acts ++ a ∷ [])) }
    {
        let Some(leaf) = self.leaves.at(slot) else {
            return Ok(());
        };
        let growth = self.growths.len() as u32;
        let slots = child_slots(alloc, heir(c, &label), slot, new)?;
        let childless = slots.len() == 0;
        let known = known(later, &label);
        self.grow(leaf, slot, slots, label, known)?;
        if childless {
            self.walk(c, later, growth);
        }
        Ok(())
    }
}

/// The child that takes the slot of what is decomposed.
fn heir(c: &Compiled, label: &Label) -> Option<u32>
    ensures { result ≡ spec.heir_of c.now label.now }
{
    match label {
        Label::Abstract { method, .. } => c.methods.get(*method as usize)?.heir,
        _ => None,
    }
}

/// What comes right after and before each child of what is decomposed.
fn known<'l>(later: &'l [Later], label: &Label) -> Option<&'l Later>
    ensures { option_copied result ≡ spec.later_of later.now label.now }
{
    match label {
        Label::Abstract { method, .. } => later.get(*method as usize),
        _ => None,
    }
}
