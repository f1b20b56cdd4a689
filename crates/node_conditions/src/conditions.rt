ghost use Rattle.std.specs.Prelude.{ℕ, ◌≡◌, slice_index, slice_index_or, None, IfOk, IfSome};

use crate::greatest::{Stand, first_in, greatest_in};
use crate::nodes::demand_of;
use gap_pass::Conditions;
use htn_base::{List, Memory};
use plan_model::Compiled;
use problem_index::World;
use state_history::History;
use std::alloc::Global;
use std::marker::{Brand, Model, PhantomData};
use tree_core::Tree;

/// Which node may stand in which gap, where the method that it asks for has which values: a run of the pass picks it.
pub(crate) trait Standing {
    ghost use Rattle.std.specs.Prelude.{ℕ, List};

    ghost stands: { ℕ → List ℕ → ℕ → Type 0 };
}

impl Standing for Brand {
    ghost stands = { λ k values i. Unit {0} };
}

/// Tells in which gaps the nodes of a tree may stand, from the states in these gaps. `found`: the gaps that were found, with the first
/// values there, by the addresses of nodes.
pub(crate) struct NodeConditions<'a, K: Standing> {
    c: &'a Compiled,
    world: World<'a>,
    tree: &'a Tree,
    history: History,
    found: Vec<Option<Stand>>,
    of: PhantomData<K>,
}

impl<'a, K: Standing> Drop for NodeConditions<'a, K> {
    fn drop(self) {
        let NodeConditions {
            c: _,
            world: _,
            tree: _,
            history: _,
            found: _,
            of: _,
        } = self;
    }
}

impl<'a, K: Standing> Model for NodeConditions<'a, K> {
    ghost use Rattle.node_conditions.specs.Stands.{Tells, AreKept};

    ghost Value = { Unit {0} };

    ghost view = { λ s. tt };

    ghost invariant = { λ s. Tells K.stands s.c.now s.world s.tree.now s.history × AreKept K.stands s.found.items };
}

impl<'a, K: Standing> Conditions for NodeConditions<'a, K> {
    ghost use Rattle.node_conditions.specs.Stands.{Somehow};

    ghost may = { λ s. Somehow K.stands };

    fn greatest(&mut self, alloc: Global, node: u32, most: u32) -> Result<Option<u32>, Memory> {
        let demand = demand_of(alloc, self.c, self.tree, node)?;
        let found = greatest_in(alloc, &demand, &mut self.history, most, &self.world);
        drop(demand);
        match found? {
            Some(stand) => Ok(Some(self.keep(node, stand))),
            None => Ok(None),
        }
    }
}

impl<'a, K: Standing> NodeConditions<'a, K> {
    ghost use Rattle.node_conditions.specs.Stands.{Tells, AreFirstAt, AreFirst, AreKept};

    /// Those of a tree of the compiled problem, with the states of this history, where this was found.
    pub(crate) fn new(
        c: &'a Compiled,
        world: World<'a>,
        tree: &'a Tree,
        history: History,
        found: Vec<Option<Stand>>,
    ) -> NodeConditions<'a, K>
        requires tells { Tells K.stands c.now world tree.now history }
        requires kept { AreKept K.stands found.items }
    {
        NodeConditions {
            c,
            world,
            tree,
            history,
            found,
            of: PhantomData,
        }
    }

    /// Keeps the gap that was found for the node, with the first values there. The gap.
    fn keep(&mut self, node: u32, stand: Stand) -> u32
        requires { AreFirstAt K.stands node stand.gap stand.values }
        ensures { result ≡ stand.gap }
    {
        let place = node as usize;
        let gap = stand.gap;
        if place < self.found.len() {
            self.found[place] = Some(stand);
        }
        gap
    }

    /// The first values with which the node stands in the gap, where they were found. They are kept no longer.
    fn kept(&mut self, node: u32, gap: u32) -> Option<List<u32>>
        ensures { IfSome result (AreFirstAt K.stands node gap) }
    {
        let place = node as usize;
        if place >= self.found.len() {
            return None;
        }
        let stand = self.found[place].take()?;
        if stand.gap == gap {
            Some(stand.into_values())
        } else {
            None
        }
    }

    /// The first values with which the node stands in the gap, where it may.
    fn first_values(&mut self, alloc: Global, node: u32, gap: u32) -> Result<List<u32>, Memory>
        ensures { IfOk result (AreFirstAt K.stands node gap) }
    {
        match self.kept(node, gap) {
            Some(values) => Ok(values),
            None => self.searched_values(alloc, node, gap),
        }
    }

    /// The same, where they are searched for.
    fn searched_values(&mut self, alloc: Global, node: u32, gap: u32) -> Result<List<u32>, Memory>
        ensures { IfOk result (AreFirstAt K.stands node gap) }
    {
        let demand = demand_of(alloc, self.c, self.tree, node)?;
        if !demand.asks_for_values() {
            return Ok(List::new(alloc));
        }
        let mut found = first_in(alloc, &demand, &mut self.history, gap, &self.world)?;
        match found.values.take() {
            Some(values) => Ok(values),
            None => Ok(List::new(alloc)),
        }
    }

    /// The first values with which each of so many nodes stands in its gap, where it may.
    pub(crate) fn each_first(
        &mut self,
        alloc: Global,
        size: u32,
        gaps: &[u32],
    ) -> Result<List<List<u32>>, Memory>
        ensures { IfOk result (AreFirst K.stands size gaps.now) }
    {
        let mut all = List::with_room(alloc, size as usize)?;
        for node in 0..size {
            all.put(self.first_values(alloc, node, gap_at(gaps, node)))?;
        }
        Ok(all)
    }
}

/// The gap of the node. One that isn't there is gap 0.
fn gap_at(gaps: &[u32], node: u32) -> u32
    ensures { result ≡ slice_index gaps.now node }
{
    match gaps.get(node as usize) {
        Some(gap) => *gap,
        None => 0,
    }
}

/// Nothing is found of so many nodes.
#[tactic(auto, using(crate::proofs::Kept::none_more))]
pub(crate) fn none_found(alloc: Global, count: usize) -> Result<Vec<Option<Stand>>, Memory>
    ensures { IfOk result (λ found. (k : ℕ) → slice_index_or found.items k None ≡ None) }
{
    let mut found = Vec::with_capacity(alloc, count)?;
    for _node in 0..count {
        found.push(None)?;
    }
    Ok(found)
}
