ghost use Rattle.std.specs.Prelude.{◌≡◌, ◌++◌, flat_map, IfOk, OnOk};
ghost use Rattle.plan_texts.specs.Networks.{chain_if};
ghost use Rattle.name_binding.specs.Spots.{noted};
ghost use Rattle.hddl_bind.specs.Ids.{AreIds, subtask_at};
ghost use Rattle.hddl_bind.specs.Pairs as spec;

use crate::ids::subtask_of;
use hddl_reader::{RawNet, RawPair};
use htn_base::{List, Memory, number};
use name_binding::{Faults, Places, found_or_noted};
use plan_model::Pair;
use std::alloc::Global;

/// The pairs of a network: the chain and then the written ones, and of these the offsets of their parentheses.
pub(crate) struct Ordering {
    pub pairs: List<Pair>,
    pub offsets: List<u32>,
}

impl Drop for Ordering {
    fn drop(self) {
        let Ordering {
            pairs: _,
            offsets: _,
        } = self;
    }
}

/// The pairs of a network. The fault of each unknown id is noted, and its pair is left out.
pub(crate) fn pairs_of(
    alloc: Global,
    ids: &Places,
    places: &[u32],
    net: &RawNet,
    faults: &mut Faults,
) -> Result<Ordering, Memory>
    requires ids { AreIds net.now.subs ids.now places.now }
    ensures pairs { IfOk result (λ made. made.pairs ≡ spec.pairs_bound net.now) }
    ensures offsets { IfOk result (λ made. made.offsets ≡ spec.pairs_at net.now) }
    ensures faults { OnOk result (faults.new.least
        ≡ noted faults.old.least (flat_map (spec.pair_faults net.now.subs) net.now.pairs)) }
{
    let pairs = chain_of(alloc, net.ordered, net.subs.len())?;
    let offsets = List::new(alloc);
    let mut ordering = Ordering { pairs, offsets };
    for pair in net.pairs.as_slice() {
        let bound = pair_of(ids, places, *pair, faults);
        ordering.put(bound, pair.at)?;
    }
    Ok(ordering)
}

impl Ordering {
    /// The pairs alone.
    pub(crate) fn into_pairs(self) -> List<Pair>
        ensures pairs { result ≡ self.pairs }
    {
        let Ordering { pairs, offsets: _ } = self;
        pairs
    }

    /// Puts a written pair behind the others, where it is one of two subtasks.
    fn put(&mut self, bound: Option<Pair>, at: u32) -> Result<(), Memory>
        ensures pairs { OnOk result
            (self.new.pairs ≡ self.old.pairs ++ spec.if_pair (λ pair. pair) bound) }
        ensures offsets { OnOk result
            (self.new.offsets ≡ self.old.offsets ++ spec.if_pair (λ _. at) bound) }
    {
        match bound {
            Some(pair) => {
                self.pairs.push(pair)?;
                self.offsets.push(at)
            }
            None => Ok(()),
        }
    }
}

/// The two subtasks of a pair. The fault of each unknown id is noted.
fn pair_of(ids: &Places, places: &[u32], pair: RawPair, faults: &mut Faults) -> Option<Pair>
    ensures pair { result ≡ spec.if_both (subtask_at ids.now places.now pair.first.name.number)
        (subtask_at ids.now places.now pair.then.name.number) }
    ensures faults { faults.new.least ≡ noted faults.old.least
        (spec.unknown_ids (subtask_at ids.now places.now) pair) }
{
    let first = subtask_of(ids, places, pair.first.name);
    let then = subtask_of(ids, places, pair.then.name);
    found_or_noted(first, 19, pair.first.at, faults);
    found_or_noted(then, 19, pair.then.at, faults);
    Some(Pair {
        first: first?,
        then: then?,
    })
}

/// Where the network is ordered, each of so many subtasks before the next.
fn chain_of(alloc: Global, ordered: bool, count: usize) -> Result<List<Pair>, Memory>
    ensures { IfOk result (λ pairs. pairs ≡ chain_if ordered count) }
{
    let mut pairs = List::new(alloc);
    if ordered {
        for first in 0..number(count)?.saturating_sub(1) {
            pairs.push(Pair {
                first,
                then: first + 1,
            })?;
        }
    }
    Ok(pairs)
}
