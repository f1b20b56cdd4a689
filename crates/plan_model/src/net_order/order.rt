ghost use Rattle.std.specs.Prelude.{◌≡◌, ◌+◌, ◌<◌, ◌≤◌, ◌^◌, length, IfOk, IfErr};
ghost use Rattle.htn_base.specs.Limits.{most_subtasks};

use crate::Pair;
use crate::net_order::child_set::ChildSet;
use crate::net_order::cuts::cuts_of;
use crate::net_order::firsts::firsts_of;
use crate::net_order::last::last_of;
use crate::net_order::sorted::sorted;
use htn_base::{List, Memory};
use std::alloc::Global;
use std::marker::Model;

/// Why there is no order. `Cycle` comes exactly where the pairs have a cycle, and `pair` is the place of the first
/// pair that closes one with those before it. `Memory` comes where no memory was to be had.
#[derive(Clone, Copy, PartialEq, Eq)]
pub enum OrderError {
    Cycle { pair: u32 },
    Memory,
}

impl From<Memory> for OrderError {
    ghost use Rattle.std.specs.Prelude.{◌≡◌};
    ghost use Rattle.plan_model.specs.declared.net_order.order.OrderError.TheVariants.{Memory as OutOfMemory};

    ghost from_gives = { λ _ error. error ≡ OutOfMemory };

    fn from(_error: Memory) -> OrderError {
        OrderError::Memory
    }
}

/// The order of the children of a network, by their numbers from 0. Contracts see what it answers.
pub struct Order {
    before: Vec<ChildSet>,
    line: List<u32>,
    last: Option<u32>,
    begins: ChildSet,
    cuts: ChildSet,
}

impl Drop for Order {
    fn drop(self) {
        let Order {
            before: _,
            line: _,
            last: _,
            begins: _,
            cuts: _,
        } = self;
    }
}

impl Model for Order {
    ghost use Rattle.std.specs.Prelude.{length, ◌≡◌};
    ghost use Rattle.plan_model.specs.net_order.Answers.{Answers};
    ghost use Rattle.plan_model.specs.net_order.Marks.{IsSquare};

    ghost Value = { Answers };

    ghost view = { λ order. record {
      count = length order.before.items;
      before = order.before.items;
      line = order.line;
      last = order.last;
      begins = order.begins;
      cuts = order.cuts;
    } };

    ghost invariant = { λ order. IsSquare (length order.before.items) order.before.items
        × (length order.begins ≡ length order.before.items)
        × (length order.cuts ≡ length order.before.items) };
}

impl Order {
    ghost use Rattle.plan_model.specs.net_order.Answers as spec;
    ghost use Rattle.plan_model.specs.net_order.Meaning.{AreBelow, IsOrderOf, IsRefusedBy};

    /// The order that the pairs generate on `n` children, which are subtasks and a check at most. It takes memory for n² bits
    /// and some lists.
    pub fn new(alloc: Global, n: u32, pairs: &[Pair]) -> Result<Order, OrderError>
        requires small { n ≤ most_subtasks + 1 }
        requires below { AreBelow n pairs.now }
        requires few { length pairs.now < 2 ^ 32 }
        ensures order { IfOk result (IsOrderOf n pairs.now) }
        ensures refused { IfErr result (IsRefusedBy pairs.now) }
    {
        let (before, line) = sorted(alloc, n as usize, pairs)?;
        let begins = firsts_of(alloc, n as usize, pairs)?;
        let cuts = cuts_of(alloc, before.as_slice(), line.as_slice())?;
        let last = last_of(before.as_slice(), line.as_slice());
        Ok(Order {
            before,
            line,
            last,
            begins,
            cuts,
        })
    }

    /// Whether child `a` must come before child `b`.
    pub fn precedes(&self, a: u32, b: u32) -> bool
        requires first { a < self.now.count }
        requires second { b < self.now.count }
        ensures { result ≡ spec.precedes self.now a b }
    {
        self.before[b as usize].contains(a as usize)
    }

    /// All children: at each place the least number not yet listed whose predecessors are all listed.
    pub fn line(&self) -> &List<u32>
        ensures { result.now ≡ self.now.line }
    {
        &self.line
    }

    /// The last of the line. `None` exactly where there are no children.
    pub fn heir(&self) -> Option<u32>
        ensures { result ≡ spec.heir self.now }
    {
        self.line.as_slice().last().copied()
    }

    /// The child that all others precede. `None` exactly where there is none.
    pub fn last(&self) -> Option<u32>
        ensures { result ≡ self.now.last }
    {
        self.last
    }

    /// Whether child `a` precedes no child.
    pub fn maximal(&self, a: u32) -> bool
        requires { a < self.now.count }
        ensures { result ≡ spec.maximal self.now a }
    {
        !self.begins.contains(a as usize)
    }

    /// Whether each of the first `k` of the line precedes each of the rest, for `k` from 1 to one less than the
    /// number of children.
    pub fn cut(&self, k: u32) -> bool
        requires first { 1 ≤ k }
        requires within { k < self.now.count }
        ensures { result ≡ spec.cut self.now k }
    {
        self.cuts.contains(k as usize)
    }
}
