ghost use Rattle.std.specs.Prelude.{◌≡◌, [], nat_eq, position, IfOk, OnOk, OnErr};
ghost use Rattle.std.specs.Cmp.Lexicographic.{pointwise};
ghost use Rattle.htn_base.specs.Table.{with_word};

use htn_base::{List, Memory, number};
use std::alloc::Global;
use std::collections::BTreeMap;
use std::marker::Model;

/// Unions, each the list of its types' numbers and each once, in the order in which they were first put. Contracts see the
/// list of them. The place of one is found by the order of the lists, in no more steps whatever unions a text writes.
pub struct UnionTable {
    unions: List<List<u32>>,
    places: BTreeMap<Vec<u32>, u32>,
}

impl Drop for UnionTable {
    fn drop(self) {
        let UnionTable {
            unions: _,
            places: _,
        } = self;
    }
}

impl Model for UnionTable {
    ghost use Rattle.std.specs.Prelude.{ℕ, List as Items};
    ghost use Rattle.name_binding.specs.UnionPlaces.{ArePlacesOf};

    ghost Value = { Items (Items ℕ) };

    ghost view = { λ table. table.unions };

    ghost invariant = { λ table. ArePlacesOf table.places table.unions };
}

impl UnionTable {
    /// No unions. They take no memory yet.
    pub(crate) fn new(alloc: Global) -> UnionTable
        ensures none { result ≡ [] }
    {
        UnionTable {
            unions: List::new(alloc),
            places: BTreeMap::new(alloc),
        }
    }

    /// The unions in order.
    pub(crate) fn as_slice(&self) -> &[List<u32>]
        ensures unions { result.now ≡ self.now }
    {
        self.unions.as_slice()
    }

    /// The place of the union of these types.
    pub(crate) fn place(&self, members: &[u32]) -> Option<u32>
        ensures place { result ≡ position (pointwise nat_eq members.now) self.now }
    {
        self.places.get(members).copied()
    }

    /// Puts a union behind the others, unless it is there. After `Memory` they are as they were.
    pub(crate) fn put(&mut self, alloc: Global, members: &[u32]) -> Result<(), Memory>
        ensures put { OnOk result (self.new ≡ with_word self.old members.now) }
        ensures unchanged { OnErr result (self.new ≡ self.old) }
    {
        if self.places.contains_key(members) {
            return Ok(());
        }
        let place = number(self.unions.len())?;
        let key = Vec::from_slice(alloc, members)?;
        self.places.insert(key, place)?;
        match self.unions.put(listed(alloc, members)) {
            Ok(()) => Ok(()),
            Err(memory) => {
                self.places.remove(members);
                Err(memory)
            }
        }
    }
}

/// These numbers in a list of their own.
pub(crate) fn listed(alloc: Global, numbers: &[u32]) -> Result<List<u32>, Memory>
    ensures same { IfOk result (λ list. list ≡ numbers.now) }
{
    let mut list = List::new(alloc);
    for number in numbers {
        list.push(*number)?;
    }
    Ok(list)
}
