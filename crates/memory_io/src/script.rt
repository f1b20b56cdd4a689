ghost use Rattle.std.specs.Prelude.{◌≡◌, OnOk, OnErr};
ghost use Rattle.outside_io.specs.Count.{Rises};
ghost use Rattle.memory_io.specs.Script.{fresh, fails_next, after_call, after_fault, with_failing};

use htn_base::{List, Memory};
use std::alloc::Global;
use std::marker::Model;

/// Calls of one kind, of which some are to fail.
pub(crate) struct Script {
    failing: List<u64>,
    calls: u64,
    faults: u64,
}

impl Drop for Script {
    fn drop(self) {
        let Script {
            failing: _,
            calls: _,
            faults: _,
        } = self;
    }
}

impl Model for Script {
    ghost use Rattle.memory_io.specs.Script.{Script};

    ghost Value = { Script };

    ghost view = { λ s. record { failing = s.failing; calls = s.calls; faults = s.faults } };
}

impl Script {
    pub(crate) fn new(alloc: Global) -> Script
        ensures fresh { result ≡ fresh }
    {
        Script {
            failing: List::new(alloc),
            calls: 0,
            faults: 0,
        }
    }

    /// Lets call number `k` fail, counted from 0.
    pub(crate) fn fail(&mut self, k: u32) -> Result<(), Memory>
        ensures added { OnOk result (self.new ≡ with_failing self.old k) }
        ensures unchanged { OnErr result (self.new ≡ self.old) }
    {
        self.failing.push(u64::from(k))
    }

    /// Whether the next call is to fail.
    pub(crate) fn fails_next(&self) -> bool
        ensures listed { result ≡ fails_next self.now }
    {
        self.failing.as_slice().contains(&self.calls)
    }

    /// Counts a call.
    pub(crate) fn count_call(&mut self)
        ensures counted { self.new ≡ after_call self.old }
    {
        self.calls = self.calls.saturating_add(1);
    }

    /// Counts a call that failed.
    pub(crate) fn count_fault(&mut self)
        ensures counted { self.new ≡ after_fault self.old }
        ensures rises { Rises self.old.faults self.new.faults }
    {
        self.calls = self.calls.saturating_add(1);
        self.faults = self.faults.saturating_add(1);
    }
}
