ghost use Rattle.std.specs.Prelude.{ℕ, ◌≡◌, ◌≤◌, OnOk};
ghost use Rattle.state_history.specs.Gaps.{is_true_in, flips_at, AreAllWithin};

use crate::gaps::{Gaps, Look, look_at};
use htn_base::Memory;
use plan_model::{Facts, GroundAtom};
use std::alloc::Global;

/// Up to this number at least, and up to the greatest object of the first state, objects have atoms that are found quickly.
const LEAST_MOST: u32 = 1022;

/// The gaps in which atoms flip, up to the last gap.
pub struct Flips {
    pub(crate) gaps: Gaps,
    pub(crate) last: u32,
    ghost sound: { AreAllWithin last gaps },
}

impl Drop for Flips {
    fn drop(self) {
        let Flips { gaps: _, last: _ } = self;
    }
}

impl Flips {
    ghost use Rattle.std.specs.Prelude.{◌∷◌, ◌+◌, Contains, false};
    ghost use Rattle.plan_model.specs.declared.terms.GroundAtom.{GroundAtom};
    ghost use Rattle.state_history.specs.Flips.{truth_in, IsSet, AreSet};
    ghost use Rattle.ground_state.specs.States.{atom};

    /// No atom is true, and gap 0 is the last. `init`: atoms whose objects are to be found quickly.
    pub(crate) fn new(alloc: Global, init: &Facts) -> Flips
        ensures last { result.last ≡ 0 }
        ensures none { (j : ℕ) (g : GroundAtom) → truth_in result j g ≡ false }
    {
        Flips {
            gaps: Gaps::new(alloc, greatest(init).max(LEAST_MOST)),
            last: 0,
        }
    }

    /// Whether the atom of this key is true in the gap, and since when it is as it is there.
    pub(crate) fn at(&self, key: &[u32], gap: u32) -> Look
        ensures since { result.since ≤ gap }
        ensures same { (j : ℕ) → result.since ≤ j → j ≤ gap → is_true_in j (flips_at self.now.gaps key.now) ≡ result.truth }
    {
        look_at(self.gaps.of(key), gap)
    }

    /// Goes to one more gap, in which all is as it was in the last.
    pub(crate) fn next(&mut self) -> Result<(), Memory>
        ensures last { OnOk result (self.new.last ≡ self.old.last + 1) }
        ensures same { (j : ℕ) (g : GroundAtom) → truth_in self.new j g ≡ truth_in self.old j g }
    {
        self.last = self.last.checked_add(1).ok_or(Memory)?;
        Ok(())
    }

    /// Makes the atom true, or false, from the last gap on.
    pub(crate) fn set(
        &mut self,
        alloc: Global,
        predicate: u32,
        args: &[u32],
        truth: bool,
    ) -> Result<(), Memory>
        ensures { OnOk result (IsSet self.old (atom predicate args.now) truth self.new) }
    {
        let mut key = Vec::new(alloc);
        key.push(predicate)?;
        key.extend_from_slice(args)?;
        self.gaps.turn(alloc, key, self.last, truth)
    }

    /// Makes the atoms true, or false, from the last gap on.
    pub(crate) fn set_each(
        &mut self,
        alloc: Global,
        atoms: &[GroundAtom],
        truth: bool,
    ) -> Result<(), Memory>
        ensures { OnOk result (AreSet self.old (Contains atoms.now) truth self.new) }
    {
        for atom in atoms {
            self.set(alloc, atom.predicate, atom.args.as_slice(), truth)?;
        }
        Ok(())
    }
}

/// The greatest object of the atoms.
fn greatest(atoms: &Facts) -> u32 {
    let mut most = 0;
    for i in 0..atoms.len() {
        if let Some(atom) = atoms.get(i) {
            for j in 0..atom.args.len() {
                if let Some(object) = atom.args.get(j) {
                    most = most.max(object);
                }
            }
        }
    }
    most
}
