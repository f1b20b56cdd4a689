ghost use Rattle.std.specs.Prelude.{◌≡◌, ◌≤◌, ◌<◌, ◌↔◌, length, get_or, IfOk, IfSome, IsSome};
ghost use Rattle.htn_base.specs.Limits.{longest_input};
ghost use Rattle.text_forms.specs.Bytes.{class_of};
ghost use Rattle.text_forms.specs.Faults.{IsFaultless};
ghost use Rattle.text_forms.specs.sexpr_text.Kept.{CountsTokens};
ghost use Rattle.text_forms.specs.sexpr_text.Places.{IsGoodAt, IsReadTo, AreMarks};
ghost use Rattle.text_forms.specs.sexpr_text.Seen.{class_seen};

use crate::sexpr_text::classes::{Class, class_of};
use crate::sexpr_text::ends::{blank_end, word_end};
use crate::sexpr_text::faults::is_fault;
use htn_base::Memory;
use std::alloc::Global;

/// The place of each token whose number is a multiple of this is kept. Those between are read again when they are asked
/// for, so that what is kept takes no more memory than the text.
pub const EACH: u32 = 8;

/// A place from which on the tokens from some number on stand, and how many lists are open there.
#[derive(Clone, Copy)]
pub struct Place {
    pub at: u32,
    pub depth: u32,
}

/// The number of tokens, and the place of every eighth. Beside each place stands how many lists at least are open behind
/// any token since the place before it, and in `low` the same since the last place.
pub struct Marks {
    pub count: u32,
    pub places: Vec<Place>,
    pub least: Vec<u8>,
    pub low: u32,
}

impl Drop for Marks {
    fn drop(self) {
        let Marks {
            count: _,
            places: _,
            least: _,
            low: _,
        } = self;
    }
}

/// The marks of a text without faults, in one pass, or `None` where the text has a fault.
pub fn marks_of(alloc: Global, source: &[u8]) -> Result<Option<Marks>, Memory>
    requires short { length source.now ≤ longest_input }
    ensures count { IfOk result (λ found. IfSome found (CountsTokens source.now)) }
    ensures marks { IfOk result (λ found. IfSome found (AreMarks source.now)) }
    ensures faultless { IfOk result (λ found. IsSome found ↔ IsFaultless source.now) }
{
    // Room for a mark in sixteen bytes, which is enough for most texts: growing copies.
    let room = source.len() / 16;
    let mut marks = Marks {
        count: 0,
        places: Vec::with_capacity(alloc, room)?,
        least: Vec::with_capacity(alloc, room)?,
        low: 0,
    };
    let mut place = Place { at: 0, depth: 0 };
    while (place.at as usize) < source.len() {
        let class = class_of(source[place.at as usize]);
        if is_fault(class, place.depth as usize) {
            return Ok(None);
        }
        place = marks.pass_over(source, place, class)?;
    }
    if place.depth > 0 {
        return Ok(None);
    }
    Ok(Some(marks))
}

impl Marks {
    // Passes over what begins at a place, and marks it where it is a token.
    fn pass_over(&mut self, source: &[u8], place: Place, class: Class) -> Result<Place, Memory>
        requires short { length source.now ≤ longest_input }
        requires within { place.at < length source.now }
        requires class { class_seen class ≡ class_of (get_or source.now place.at 0) }
        requires good { IsGoodAt place.depth (class_seen class) }
        requires read { IsReadTo source.now self.old place }
        ensures later { IfOk result (λ next. place.at < next.at) }
        ensures read { IfOk result (IsReadTo source.now self.new) }
    {
        let Place { at, depth } = place;
        let next = match class {
            Class::Opening => Place {
                at: at + 1,
                depth: depth + 1,
            },
            Class::Closing => Place {
                at: at + 1,
                depth: depth.saturating_sub(1),
            },
            Class::Letter => Place {
                at: word_end(source, at as usize + 1) as u32,
                depth,
            },
            Class::Blank | Class::Bad => {
                let at = blank_end(source, at as usize) as u32;
                return Ok(Place { at, depth });
            }
        };
        if self.count % EACH == 0 {
            self.places.push(place)?;
            // At most 200 lists are open, so it is a byte.
            self.least.push(self.low.min(255) as u8)?;
            self.low = next.depth;
        } else {
            self.low = self.low.min(next.depth);
        }
        self.count += 1;
        Ok(next)
    }
}
