ghost use Rattle.std.specs.Prelude.{◌≡◌, ℕ, ◌<◌, ◌||◌, true, false, length, slice_set, IfOk};
ghost use Rattle.plan_model.specs.net_order.Marks.{has, IsWithinBelow, IsLeastOutsideOrNone};

use htn_base::Memory;
use std::alloc::Global;
use std::marker::Model;

/// A set of children of one network, with a bit for each. Contracts see a mark for each child.
pub struct ChildSet {
    count: usize,
    words: Vec<u64>,
}

impl Drop for ChildSet {
    fn drop(self) {
        let ChildSet { count: _, words: _ } = self;
    }
}

impl Model for ChildSet {
    ghost use Rattle.std.specs.Prelude.{Bool, List};
    ghost use Rattle.plan_model.specs.net_order.Words.{marks_of, AreWords};

    ghost Value = { List Bool };

    ghost view = { λ set. marks_of set.count set.words.items };

    ghost invariant = { λ set. AreWords set.count set.words.items };
}

impl ChildSet {
    /// The empty set in a network of so many children.
    pub fn new(alloc: Global, count: usize) -> Result<ChildSet, Memory>
        ensures room { IfOk result (λ set. length set ≡ count) }
        ensures empty { IfOk result (λ set. (i : ℕ) → has set i ≡ false) }
    {
        let words = vec![in alloc; 0; count / 64 + 1]?;
        Ok(ChildSet { count, words })
    }

    /// The number of children of the network, in the set or not.
    pub fn len(&self) -> usize
        ensures { result ≡ length self.now }
    {
        self.count
    }

    /// Whether the child is in the set.
    pub fn contains(&self, child: usize) -> bool
        requires { child < length self.now }
        ensures { result ≡ has self.now child }
    {
        (self.words[child / 64] >> (child % 64)) & 1 == 1
    }

    /// Puts the child into the set.
    pub fn insert(&mut self, child: usize)
        requires { child < length self.old }
        ensures { self.new ≡ slice_set self.old child true }
    {
        self.words[child / 64] |= 1 << (child % 64);
    }

    /// Puts all children of the other set into this one.
    pub fn insert_all(&mut self, other: &ChildSet)
        requires { length other.now ≡ length self.old }
        ensures room { length self.new ≡ length self.old }
        ensures union { (i : ℕ) → has self.new i ≡ (has self.old i || has other.now i) }
    {
        for k in 0..self.words.len() {
            self.words[k] |= other.words[k];
        }
    }

    /// The least child of this set that isn't in the other one, where none below `low` is such.
    pub fn first_outside(&self, other: &ChildSet, low: usize) -> Option<usize>
        requires room { length other.now ≡ length self.now }
        requires low { IsWithinBelow low self.now other.now }
        ensures least { IsLeastOutsideOrNone self.now other.now result }
    {
        let last = self.count / 64;
        for k in low / 64..last + 1 {
            let rest = self.words[k] & !other.words[k];
            if rest != 0 {
                return Some(64 * k + rest.trailing_zeros() as usize);
            }
        }
        None
    }
}
