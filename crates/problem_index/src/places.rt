ghost use Rattle.std.specs.Prelude.{◌≡◌, ◌<◌, ◌^◌, replicate, slice_set, length, map, IfOk, None, Some};
ghost use Rattle.problem_index.specs.Places as spec;

use crate::named::Named;
use crate::words::Words;
use htn_base::{Memory, Name};
use std::alloc::Global;

/// The places of named things, by the numbers of their names: of two that have one name, the place of one.
pub struct Places {
    by_name: Vec<Option<u32>>,
}

impl Drop for Places {
    fn drop(self) {
        let Places { by_name: _ } = self;
    }
}

impl Places {
    /// The places of these things in their list, where there are `count` names.
    pub fn of<T: Named>(alloc: Global, count: usize, things: &[T]) -> Result<Places, Memory>
        requires few { length things.now < 2 ^ 32 }
        ensures places { IfOk result (λ places.
            spec.ArePlaces count (map T.named things.now) places.by_name.items) }
    {
        let mut places = Places::none(alloc, count)?;
        for (place, thing) in things.iter().enumerate() {
            places.put(thing.name(), place as u32);
        }
        Ok(places)
    }

    /// No places, where there are `count` words.
    fn none(alloc: Global, count: usize) -> Result<Places, Memory>
        ensures none { IfOk result (λ places. places.by_name.items ≡ replicate count None) }
    {
        let by_name = vec![in alloc; None; count]?;
        Ok(Places { by_name })
    }

    /// Something with this name stands at the place.
    fn put(&mut self, name: Name, place: u32)
        ensures { self.new.by_name.items ≡ slice_set self.old.by_name.items name.number (Some place) }
    {
        let number = name.number as usize;
        if number < self.by_name.len() {
            self.by_name[number] = Some(place);
        }
    }

    /// A place of what has the word.
    #[inline(always)]
    pub fn find(&self, words: &Words, word: &[u8]) -> Option<u32>
        ensures { spec.Finds words.now self.now.by_name.items word.now result }
    {
        let name = words.find(word)?;
        match self.by_name.get(name.number as usize) {
            Some(place) => *place,
            None => None,
        }
    }
}
