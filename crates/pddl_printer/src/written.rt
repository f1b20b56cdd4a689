ghost use Rattle.std.specs.Prelude.{◌≡◌};
ghost use Rattle.pddl_printer.specs.Measured.{IsMeasured};

use crate::object_range::Range;
use crate::words::object_word;
use plan_model::Pddl;

/// The objects of a range for whose quantifiers instances are written out, and how long their words are together.
#[derive(Clone, Copy)]
pub struct Written {
    pub range: Range,
    pub letters: u64,
}

impl Written {
    /// The objects of the range, in this value.
    pub fn new(p: &Pddl, range: Range) -> Written
        ensures range { result.range ≡ range }
        ensures measured { IsMeasured p.now result }
    {
        let mut letters: u64 = 0;
        for k in 0..range.count {
            let word = object_word(p, range.first as usize + k as usize);
            letters = letters.saturating_add(word.len() as u64);
        }
        Written { range, letters }
    }
}
