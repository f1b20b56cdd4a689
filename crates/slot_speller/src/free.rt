ghost use Rattle.std.specs.Prelude.{ℕ, ◌≡◌, ◌<◌, ◌↔◌, IfOk, OnOk};
ghost use Rattle.slot_speller.specs.Free as spec;

use htn_base::Memory;
use std::alloc::Global;
use std::collections::BTreeSet;

/// Which slots are free: those that were given back, and all above the greatest that was taken.
pub struct Free {
    given: BTreeSet<u32>,
    greatest: u32,
}

impl Drop for Free {
    fn drop(self) {
        let Free {
            given: _,
            greatest: _,
        } = self;
    }
}

impl Free {
    /// All but slot 1.
    pub(crate) fn but_first(alloc: Global) -> Free
        ensures free { (x : ℕ) → spec.IsFree result x ↔ (1 < x) }
        ensures sound { spec.IsSound result }
        ensures greatest { result.greatest ≡ 1 }
    {
        Free {
            given: BTreeSet::new(alloc),
            greatest: 1,
        }
    }

    /// The greatest slot that was taken.
    pub(crate) fn greatest(&self) -> u32
        ensures { result ≡ self.now.greatest }
    {
        self.greatest
    }

    /// Takes the lowest free slot. More than 4,294,967,295 slots want memory.
    pub(crate) fn take(&mut self) -> Result<u32, Memory>
        ensures { IfOk result (λ slot. spec.IsSound self.old → spec.Takes self.old slot self.new) }
    {
        if let Some(slot) = self.given.pop_first() {
            return Ok(slot);
        }
        match self.greatest.checked_add(1) {
            Some(slot) => {
                self.greatest = slot;
                Ok(slot)
            }
            None => Err(Memory),
        }
    }

    /// Gives a slot back.
    pub(crate) fn give(&mut self, slot: u32) -> Result<(), Memory>
        ensures { OnOk result (spec.Gives self.old slot self.new) }
    {
        self.given.insert(slot)?;
        Ok(())
    }
}
