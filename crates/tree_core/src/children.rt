ghost use Rattle.std.specs.Prelude.{ℕ, ◌≡◌, ◌≤◌, ◌<◌, length, slice_index, IfOk, OnOk, IfSome};
ghost use Rattle.htn_base.specs.Limits.{most_steps};
ghost use Rattle.tree_core.specs.Labels.{growths_of};
ghost use Rattle.tree_core.specs.Growing.{AreChildren};
ghost use Rattle.tree_core.specs.Rooms.{found, room, AreStarts, AreRooms, IsNoted};

use crate::growth::Growth;
use htn_base::Memory;
use std::alloc::Global;
use std::collections::BTreeMap;

// The first growth with each parent and child number: its place by these two.
//
// `starts`: where the room of each parent's children begins, which is as much as there are growths with this parent. `near`: the
// places that are found there. `far`: those of children whose numbers are too great for it, as where numbers are left out.
pub(crate) struct Children {
    starts: Vec<u32>,
    near: Vec<Option<u32>>,
    far: BTreeMap<(u32, u32), u32>,
}

impl Drop for Children {
    fn drop(self) {
        let Children {
            starts: _,
            near: _,
            far: _,
        } = self;
    }
}

impl Children {
    // The children that the growths give.
    pub(crate) fn of(alloc: Global, steps: &[Growth]) -> Result<Children, Memory>
        requires { length steps.now ≤ most_steps }
        ensures children { IfOk result (λ children. AreChildren (growths_of steps.now) children) }
    {
        let mut children = Children::none(alloc, steps)?;
        for (place, growth) in steps.iter().enumerate() {
            if let Some(parent) = growth.parent {
                children.note(parent, growth.child, place as u32)?;
            }
        }
        Ok(children)
    }

    // No growth is noted, and there is room for these.
    fn none(alloc: Global, steps: &[Growth]) -> Result<Children, Memory>
        requires { length steps.now ≤ most_steps }
        ensures rooms { IfOk result AreRooms }
        ensures none { IfOk result (λ children. (x i : ℕ) → found children x i ≡ None) }
    {
        let starts = starts_of(alloc, steps)?;
        let near = vec![in alloc; None; steps.len()]?;
        Ok(Children {
            starts,
            near,
            far: BTreeMap::new(alloc),
        })
    }

    // The first growth with this parent and child number.
    pub(crate) fn at(&self, parent: u32, child: u32) -> Option<u32>
        ensures found { result ≡ found self.now parent child }
    {
        match self.room(parent, child) {
            Some(place) => match self.near.get(place) {
                Some(found) => *found,
                None => None,
            },
            None => self.far.get(&(parent, child)).copied(),
        }
    }

    // The room of this child of the parent, if there is one.
    fn room(&self, parent: u32, child: u32) -> Option<usize>
        ensures { result ≡ room self.now.starts.items parent child }
    {
        let parent = parent as usize;
        let place = number_at(&self.starts, parent) as usize + child as usize;
        if place < number_at(&self.starts, parent + 1) as usize {
            Some(place)
        } else {
            None
        }
    }

    // The growth at the place has this parent and child number: that is noted, where there is none before it.
    fn note(&mut self, parent: u32, child: u32, place: u32) -> Result<(), Memory>
        requires rooms { AreRooms self.old }
        ensures rooms { OnOk result (AreRooms self.new) }
        ensures noted { OnOk result (IsNoted self.old self.new parent child place) }
    {
        match self.room(parent, child) {
            Some(room) => {
                if self.near[room].is_none() {
                    self.near[room] = Some(place);
                }
                Ok(())
            }
            None => {
                let key = (parent, child);
                if !self.far.contains_key(&key) {
                    self.far.insert(key, place)?;
                }
                Ok(())
            }
        }
    }
}

// The number at a place, or 0 where there is none.
fn number_at(numbers: &Vec<u32>, place: usize) -> u32
    ensures { result ≡ slice_index numbers.now.items place }
{
    match numbers.get(place) {
        Some(number) => *number,
        None => 0,
    }
}

// Where the room of each parent's children begins, and where the last one's ends.
fn starts_of(alloc: Global, steps: &[Growth]) -> Result<Vec<u32>, Memory>
    requires { length steps.now ≤ most_steps }
    ensures starts { IfOk result (λ starts. AreStarts (length steps.now) starts.items) }
{
    let counts = counts_of(alloc, steps)?;
    let most = steps.len() as u32;
    let mut starts = Vec::with_capacity(alloc, counts.len() + 1)?;
    let mut start = 0;
    starts.push(start)?;
    for count in counts.as_slice() {
        start += (*count).min(most - start);
        starts.push(start)?;
    }
    Ok(starts)
}

// How many growths have each growth as their parent.
fn counts_of(alloc: Global, steps: &[Growth]) -> Result<Vec<u32>, Memory>
    requires { length steps.now ≤ most_steps }
    ensures many { IfOk result (λ counts. length counts.items ≡ length steps.now) }
{
    let mut counts = vec![in alloc; 0_u32; steps.len()]?;
    for growth in steps {
        if let Some(parent) = growth.parent {
            let parent = parent as usize;
            if parent < counts.len() {
                counts[parent] = counts[parent].saturating_add(1);
            }
        }
    }
    Ok(counts)
}
