ghost use Rattle.std.specs.Prelude.{◌+◌, ◌-◌, ◌<◌};
ghost use Rattle.pddl_printer.specs.Behind.{of_each};
ghost use Rattle.pddl_printer.specs.LowerFacts.{facts_of, lower_with, row};
ghost use Rattle.pddl_printer.specs.Texts.{fact_text};
ghost use Rattle.text_forms.specs.sheets.Sheets.{Wrote};

use crate::batch::Batch;
use crate::object_range::Range;
use crate::pen::Pen;
use crate::stencil::Stencil;
use crate::words::{object_word, predicate_word};
use plan_model::Pddl;
use text_forms::sheets::Sheet;

/// Facts that each object of a range is lower than each later one, by this predicate. They are as many as the square of the range, so
/// they are never made.
#[derive(Clone, Copy)]
pub struct Lower {
    pub predicate: u32,
    pub range: Range,
}

/// Puts the facts, if there are any, each behind a space.
pub(crate) fn put_lower(p: &Pddl, lower: Option<Lower>, sheet: &mut Sheet<'_>)
    ensures { Wrote (of_each (fact_text p.now) (facts_of lower)) sheet.old sheet.new }
{
    if let Some(lower) = lower {
        for k in 0..lower.range.count {
            put_row(p, lower, k, sheet);
        }
    }
}

/// Puts that object `k` of the range, from 0, is lower than each later one, from one stencil where it is not too large.
fn put_row(p: &Pddl, lower: Lower, k: u32, sheet: &mut Sheet<'_>)
    requires within { k < lower.range.count }
    ensures { Wrote (of_each (fact_text p.now)
        (row lower.predicate (lower.range.first + k) (lower.range.count - (k + 1)))) sheet.old sheet.new }
{
    let object = lower.range.first as usize + k as usize;
    let name = predicate_word(p, lower.predicate);
    let word = object_word(p, object);
    let mut batch = Batch::new();
    let mut stencil = Stencil::new();
    draw_lower(name, word, b"", &mut stencil);
    for j in 0..lower.range.count - (k + 1) {
        let later = object_word(p, object + 1 + j as usize);
        if stencil.fits {
            stencil.add(later, &mut batch, sheet);
        } else {
            batch.put(sheet);
            draw_lower(name, word, later, sheet);
        }
    }
    batch.put(sheet);
}

/// Draws that an object is lower than another one, with a place for that one's word.
fn draw_lower<P: Pen>(predicate: &[u8], object: &[u8], later: &[u8], pen: &mut P)
    ensures { P.draws (lower_with predicate.now object.now) later.now pen.old pen.new }
{
    pen.draw(b" (");
    pen.draw(predicate);
    pen.draw(b" ");
    pen.draw(object);
    pen.draw(b" ");
    pen.place(later);
    pen.draw(b")");
}
