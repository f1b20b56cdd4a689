ghost use Rattle.std.specs.Prelude.{◌≡◌, [], OnOk, OnErr};
ghost use Rattle.name_binding.specs.Seen.{with_number};

use htn_base::Memory;
use std::alloc::Global;
use std::collections::BTreeSet;
use std::marker::Model;

/// Numbers, each once, in the order in which they were first put. Contracts see the list of them. Whether one is there is
/// found by the order of numbers, in no more steps whatever a text puts.
pub struct FirstSeen {
    numbers: Vec<u32>,
    seen: BTreeSet<u32>,
}

impl Drop for FirstSeen {
    fn drop(self) {
        let FirstSeen {
            numbers: _,
            seen: _,
        } = self;
    }
}

impl Model for FirstSeen {
    ghost use Rattle.std.specs.Prelude.{ℕ, List};
    ghost use Rattle.name_binding.specs.Seen.{AreSeen};

    ghost Value = { List ℕ };

    ghost view = { λ first. first.numbers.items };

    ghost invariant = { λ first. AreSeen first.seen first.numbers.items };
}

impl FirstSeen {
    /// No numbers. They take no memory yet.
    pub(crate) fn new(alloc: Global) -> FirstSeen
        ensures none { result ≡ [] }
    {
        FirstSeen {
            numbers: Vec::new(alloc),
            seen: BTreeSet::new(alloc),
        }
    }

    /// Puts a number behind the others, unless it is there. After `Memory` they are as they were.
    pub(crate) fn put(&mut self, number: u32) -> Result<(), Memory>
        ensures put { OnOk result (self.new ≡ with_number self.old number) }
        ensures unchanged { OnErr result (self.new ≡ self.old) }
    {
        if self.seen.contains(&number) {
            return Ok(());
        }
        self.numbers.push(number)?;
        match self.seen.insert(number) {
            Ok(_) => Ok(()),
            Err(_) => {
                self.numbers.pop();
                Err(Memory)
            }
        }
    }

    /// The numbers in order.
    pub(crate) fn as_slice(&self) -> &[u32]
        ensures numbers { result.now ≡ self.now }
    {
        self.numbers.as_slice()
    }
}
