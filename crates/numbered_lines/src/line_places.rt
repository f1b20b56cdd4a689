ghost use Rattle.std.specs.Prelude.{ℕ, List as Items, ◌≤◌, ◌+◌, ◌∷◌, ◌++◌, [], length, IfOk, OnOk};
ghost use Rattle.htn_base.specs.Limits.{most_lines};
ghost use Rattle.plan_texts.specs.Types.{Has, EachIs};
ghost use Rattle.plan_texts.specs.Together.{Together};
ghost use Rattle.hplan_text.specs.Printable.{task_ids};
ghost use Rattle.numbered_lines.specs.Numbered.{IsAtPlace};
ghost use Rattle.numbered_lines.specs.LinePlaces as spec;

use hplan_text::HPlan;
use htn_base::{List, Memory};
use std::alloc::Global;
use std::collections::BTreeMap;

/// The places of lines, by their ids.
///
/// `ids`: the ids by the places. `others`: the places of those lines whose id is another number than their place.
pub(crate) struct LinePlaces {
    ids: List<u64>,
    others: BTreeMap<u64, u32>,
}

impl Drop for LinePlaces {
    fn drop(self) {
        let LinePlaces { ids: _, others: _ } = self;
    }
}

impl LinePlaces {
    /// The places of the plan's lines.
    pub(crate) fn of(alloc: Global, plan: &HPlan) -> Result<LinePlaces, Memory>
        requires few { length plan.now.primitives + length plan.now.nodes ≤ most_lines }
        ensures places { IfOk result (spec.ArePlacesOf (task_ids plan.now)) }
    {
        let mut places = LinePlaces {
            ids: List::new(alloc),
            others: BTreeMap::new(alloc),
        };
        for line in plan.primitives.as_slice() {
            places.push(line.id)?;
        }
        for node in plan.nodes.as_slice() {
            places.push(node.line.id)?;
        }
        Ok(places)
    }

    /// One more line, with this id.
    fn push(&mut self, id: u64) -> Result<(), Memory>
        requires few { length self.old.ids ≤ most_lines }
        ensures { OnOk result ((ids : Items ℕ) → spec.ArePlacesOf ids self.old → spec.ArePlacesOf (ids ++ id ∷ []) self.new) }
    {
        let place = self.ids.len();
        if id != place as u64 {
            self.others.insert(id, place as u32)?;
        }
        self.ids.push(id)
    }

    /// The place of the line with this id.
    fn find(&self, id: u64) -> u32
        requires places { spec.ArePlacesOf self.now.ids self.now }
        requires few { length self.now.ids ≤ most_lines }
        requires known { Has self.now.ids id }
        ensures place { IsAtPlace self.now.ids result id }
    {
        match self.ids.get(id as usize) {
            Some(own) if *own == id => id as u32,
            _ => self.others[&id],
        }
    }

    /// The places of the lines with these ids.
    pub(crate) fn all(&self, alloc: Global, ids: &List<u64>) -> Result<List<u32>, Memory>
        requires places { spec.ArePlacesOf self.now.ids self.now }
        requires few { length self.now.ids ≤ most_lines }
        requires known { EachIs (Has self.now.ids) ids.now }
        ensures places { IfOk result (λ places. Together (IsAtPlace self.now.ids) places ids.now) }
    {
        let mut places = List::with_room(alloc, ids.len())?;
        for id in ids.as_slice() {
            places.push(self.find(*id))?;
        }
        Ok(places)
    }
}
