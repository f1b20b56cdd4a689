ghost use Rattle.std.specs.Prelude.{◌≡◌, ◌+◌, ◌≤◌, ◌++◌, flat_map, map, IfOk, OnOk};
ghost use Rattle.htn_base.specs.Limits.{most_subtasks};
ghost use Rattle.name_binding.specs.PairsAmong as spec;

use crate::places::Places;
use gd_reader::{RawParams, RawTerm};
use htn_base::{List, Memory, Name, number};
use plan_model::Pair;
use plan_model::net_order::{Order, OrderError};
use std::alloc::Global;

/// The offset of the word of the child of the first pair that closes a cycle with the earlier ones, where only the first `count`
/// types are looked at.
pub(crate) fn cycle_among(
    alloc: Global,
    types: &Places,
    count: u32,
    listed: &RawParams,
) -> Result<Option<u32>, Memory>
    requires few { count ≤ most_subtasks + 1 }
    ensures cycle { IfOk result (spec.IsCycleAmong types.now count listed.now) }
{
    let written = pairs_among(alloc, types, count, listed)?;
    let pairs = written.pairs.as_slice();
    number(pairs.len())?;
    match Order::new(alloc, count, pairs) {
        Ok(order) => {
            drop(order);
            Ok(None)
        }
        Err(OrderError::Cycle { pair }) => {
            let offsets = written.offsets.as_slice();
            Ok(Some(offsets[pair as usize]))
        }
        Err(OrderError::Memory) => Err(Memory),
    }
}

/// Pairs of types and parents by their places, and of each the offset of the child's word.
struct ParentPairs {
    pairs: List<Pair>,
    offsets: List<u32>,
}

impl Drop for ParentPairs {
    fn drop(self) {
        let ParentPairs {
            pairs: _,
            offsets: _,
        } = self;
    }
}

/// The pairs among the first `count` types, in text order.
fn pairs_among(
    alloc: Global,
    types: &Places,
    count: u32,
    listed: &RawParams,
) -> Result<ParentPairs, Memory>
    ensures pairs { IfOk result
        (λ written. written.pairs ≡ spec.pairs_among types.now count listed.now) }
    ensures offsets { IfOk result
        (λ written. written.offsets ≡ spec.places_among types.now count listed.now) }
{
    let mut written = ParentPairs {
        pairs: List::new(alloc),
        offsets: List::new(alloc),
    };
    for item in listed.as_slice() {
        if let Some(child) = place_among(types, count, item.name) {
            written.put_parents(types, count, child, item.at, item.ty.as_slice())?;
        }
    }
    Ok(written)
}

impl ParentPairs {
    /// Puts the pairs of a child, whose word stands at this offset, and its parents behind the others.
    fn put_parents(
        &mut self,
        types: &Places,
        count: u32,
        child: u32,
        at: u32,
        parents: &[RawTerm],
    ) -> Result<(), Memory>
        ensures pairs { OnOk result (self.new.pairs
            ≡ self.old.pairs ++ flat_map (spec.pair_among types.now count child) parents.now) }
        ensures offsets { OnOk result (self.new.offsets ≡ self.old.offsets
            ++ map (λ _. at) (flat_map (spec.pair_among types.now count child) parents.now)) }
    {
        for parent in parents {
            if let Some(then) = parent_among(types, count, child, parent.name) {
                self.pairs.push(Pair { first: child, then })?;
                self.offsets.push(at)?;
            }
        }
        Ok(())
    }
}

/// The place of the parent of this child. That of `object` is `object`.
fn parent_among(types: &Places, count: u32, child: u32, name: Name) -> Option<u32>
    ensures place { result ≡ spec.parent_among types.now count child name.number }
{
    if child == 0 {
        Some(0)
    } else {
        place_among(types, count, name)
    }
}

/// The place of the type of this name among the first `count`.
fn place_among(types: &Places, count: u32, name: Name) -> Option<u32>
    ensures place { result ≡ spec.place_among types.now count name.number }
{
    match types.get(name) {
        Some(place) if place < count => Some(place),
        _ => None,
    }
}
