ghost use Rattle.std.specs.Prelude.{◌≡◌, ◌<◌, ◌^◌, ◌↔◌, ℕ, [], IsTrue, Contains, length, IfOk, OnOk};
ghost use Rattle.std.specs.List.Sorted.{IsStrictlyIncreasing};
ghost use Rattle.plan_model.specs.Parts.{IsMarked};
ghost use Rattle.hddl_prune.specs.Places.{HasAlso, places_from};

use htn_base::{List, Memory, number};
use std::alloc::Global;
use std::marker::Model;

/// Numbers that were marked. Contracts see the rising list of them.
pub(crate) struct Marks {
    flags: Vec<bool>,
}

impl Drop for Marks {
    fn drop(self) {
        let Marks { flags: _ } = self;
    }
}

impl Model for Marks {
    ghost use Rattle.std.specs.Prelude.{ℕ, List};
    ghost use Rattle.hddl_prune.specs.Places.{places_from};

    ghost Value = { List ℕ };

    ghost view = { λ marks. places_from 0 marks.flags.items };
}

impl Marks {
    /// No marks. They take no memory yet.
    pub(crate) fn new(alloc: Global) -> Marks
        ensures none { result ≡ [] }
    {
        Marks {
            flags: Vec::new(alloc),
        }
    }

    /// Whether the number is marked.
    pub(crate) fn has(&self, number: u32) -> bool
        ensures marked { IsTrue result ↔ Contains self.now number }
        ensures rising { IsStrictlyIncreasing self.now }
    {
        let place = number as usize;
        if place < self.flags.len() {
            return self.flags[place];
        }
        false
    }

    /// The numbers that are marked, rising.
    pub(crate) fn numbers(&self, alloc: Global) -> Result<List<u32>, Memory>
        ensures numbers { IfOk result (λ numbers. numbers ≡ self.now) }
        ensures rising { IfOk result IsStrictlyIncreasing }
    {
        places(alloc, &self.flags)
    }

    /// Marks the number, which may be marked already.
    pub(crate) fn mark(&mut self, number: u32) -> Result<(), Memory>
        ensures marked { OnOk result (HasAlso self.old (λ k. k ≡ number) self.new) }
        ensures rising { OnOk result (IsStrictlyIncreasing self.new) }
    {
        let place = number as usize;
        widen(&mut self.flags, place)?;
        self.flags[place] = true;
        Ok(())
    }
}

/// Makes room for a mark at the place.
fn widen(flags: &mut Vec<bool>, place: usize) -> Result<(), Memory>
    requires { place < 2 ^ 32 }
    ensures room { OnOk result (place < length flags.new.items) }
    ensures same { OnOk result ((i : ℕ) → IsMarked flags.new.items i ↔ IsMarked flags.old.items i) }
{
    if place >= flags.len() {
        flags.resize(place + 1, false)?;
    }
    Ok(())
}

/// The places of the marks.
fn places(alloc: Global, flags: &[bool]) -> Result<List<u32>, Memory>
    ensures places { IfOk result (λ numbers. numbers ≡ places_from 0 flags.now) }
{
    let mut numbers = List::new(alloc);
    for n in 0..number(flags.len())? {
        if flags[n as usize] {
            numbers.push(n)?;
        }
    }
    Ok(numbers)
}
