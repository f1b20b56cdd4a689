ghost use Rattle.std.specs.Prelude.{ℕ, ◌≡◌, ◌+◌, ◌≤◌, ◌↔◌, Contains, IsTrue, IfOk, OnOk};
ghost use Rattle.problem_index.specs.Kinds.{IsWorld};
ghost use Rattle.state_history.specs.Histories as spec;

use crate::desk::Desk;
use crate::flips::Flips;
use crate::gaps::Look;
use crate::gather::{Touched, gather};
use crate::truth::holds_in;
use htn_base::Memory;
use plan_model::{Effect, Facts, Formula};
use problem_index::World;
use std::alloc::Global;

/// The states in the gaps between effects, from gap 0, before the first, to the last gap, after them all.
pub struct History {
    flips: Flips,
    desk: Desk,
}

impl Drop for History {
    fn drop(self) {
        let History { flips: _, desk: _ } = self;
    }
}

impl History {
    /// In gap 0, the last one, these atoms are true, and no others.
    pub fn new(alloc: Global, init: &Facts) -> Result<History, Memory>
        ensures last { IfOk result (λ h. spec.last h ≡ 0) }
        ensures init { IfOk result (λ h. spec.AreSame (spec.state_in h 0) (Contains init.now)) }
    {
        let mut flips = Flips::new(alloc, init);
        let mut args = Vec::new(alloc);
        for i in 0..init.len() {
            if let Some(atom) = init.get(i) {
                atom.args.copy_into(&mut args)?;
                flips.set(alloc, atom.predicate, args.as_slice(), true)?;
            }
        }
        Ok(History {
            flips,
            desk: Desk::new(alloc),
        })
    }

    /// The last gap: as many effects were pushed.
    pub fn last(&self) -> u32
        ensures { result ≡ spec.last self.now }
    {
        self.flips.last
    }

    /// Whether the formula is true in the gap, where the variables in force stand for these objects, and the first gap since which
    /// all that was looked at is as it is there. Memory is wanting only for the room that a look takes, which serves the next ones.
    /// Past the last gap all is as in it.
    pub fn look(
        &mut self,
        f: &Formula,
        values: &[u32],
        gap: u32,
        world: &World<'_>,
    ) -> Result<Look, Memory>
        requires { IsWorld world.now }
        ensures truth { IfOk result (λ look. IsTrue look.truth ↔ spec.IsTrueInGap world.now self.old f.now values.now gap) }
        ensures since { IfOk result (λ look. look.since ≤ gap) }
        ensures same { IfOk result (λ look. (j : ℕ) → look.since ≤ j → j ≤ gap
            → spec.IsTrueInGap world.now self.old f.now values.now j ↔ spec.IsTrueInGap world.now self.old f.now values.now gap) }
        ensures kept { self.new.flips ≡ self.old.flips }
    {
        self.desk.begin(values)?;
        let truth = holds_in(f, &mut self.desk, &self.flips, gap, world)?;
        Ok(Look {
            truth,
            since: self.desk.since,
        })
    }

    /// Goes to one more gap: the state after the effect in the last one, where the variables in force stand for these objects. Each
    /// condition is tested in the old last gap, and an add wins over a delete. After `Memory` the history is of no use.
    pub fn push(
        &mut self,
        alloc: Global,
        eff: &Effect,
        values: &[u32],
        world: &World<'_>,
    ) -> Result<(), Memory>
        requires { IsWorld world.now }
        ensures last { OnOk result (spec.last self.new ≡ spec.last self.old + 1) }
        ensures before { OnOk result ((j : ℕ) → j ≤ spec.last self.old
            → spec.AreSame (spec.state_in self.new j) (spec.state_in self.old j)) }
        ensures after { OnOk result (spec.AreSame (spec.state_in self.new (spec.last self.new))
            (spec.after_last world.now self.old eff.now values.now)) }
    {
        self.desk.begin(values)?;
        let mut touched = Touched::new(alloc);
        gather(alloc, eff, &mut self.desk, &self.flips, world, &mut touched)?;
        self.flips.next()?;
        self.flips
            .set_each(alloc, touched.deletes.as_slice(), false)?;
        self.flips.set_each(alloc, touched.adds.as_slice(), true)
    }
}
