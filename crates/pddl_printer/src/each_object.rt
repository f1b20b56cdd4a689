ghost use Rattle.std.specs.Prelude.{◌≡◌, ◌<◌, ◌++◌, false};
ghost use Rattle.plan_model.specs.task_networks.Spelling.{numbers};
ghost use Rattle.pddl_printer.specs.Batches.{Added};
ghost use Rattle.pddl_printer.specs.Behind.{of_each};
ghost use Rattle.pddl_printer.specs.Literals.{is_over as over};
ghost use Rattle.pddl_printer.specs.InstanceTexts.{literals_text, word_between};
ghost use Rattle.pddl_printer.specs.Measured.{IsMeasured};
ghost use Rattle.text_forms.specs.sheets.Sheets.{Wrote};

use crate::batch::Batch;
use crate::holes::holes;
use crate::instances::{Instance, Literal, draw_instance};
use crate::object_range::Range;
use crate::stencil::{Piece, Stencil, joined};
use crate::words::object_word;
use crate::written::Written;
use plan_model::{Param, Pddl, Scope};
use text_forms::sheets::Sheet;

/// The objects of a range, each in place of the variable of this number.
#[derive(Clone, Copy)]
pub(crate) struct Instances {
    pub(crate) written: Written,
    pub(crate) depth: usize,
}

/// Whether this is one variable of the type whose objects are written out.
pub(crate) fn is_over(range: Range, params: &[Param]) -> bool
    ensures { result ≡ over range params.now }
{
    match params {
        [param] => param.ty == range.ty,
        _ => false,
    }
}

/// Puts the literal for each object, each behind a space. Where the sheet takes nothing more they are counted all at once.
pub(crate) fn put_each(
    p: &Pddl,
    scope: &Scope<'_>,
    of: Instances,
    literal: &Literal<'_>,
    sheet: &mut Sheet<'_>,
)
    requires measured { IsMeasured p.now of.written }
    ensures { Wrote (literals_text p.now scope.now of literal.now) sheet.old sheet.new }
{
    if sheet.is_whole() {
        put_instances(p, scope, of, literal, sheet);
    } else if of.written.range.count > 0 {
        count_instances(p, scope, of, literal, sheet);
    }
}

/// Puts them from one stencil, or draws each anew where the stencil would be too large.
fn put_instances(
    p: &Pddl,
    scope: &Scope<'_>,
    of: Instances,
    literal: &Literal<'_>,
    sheet: &mut Sheet<'_>,
)
    ensures { Wrote (literals_text p.now scope.now of literal.now) sheet.old sheet.new }
{
    let depth = of.depth;
    let mut batch = Batch::new();
    let mut stencil = Stencil::new();
    draw_instance(
        p,
        scope,
        Instance { depth, word: b"" },
        literal,
        &mut stencil,
    );
    if let Some((before, behind)) = stencil.sides() {
        if let Some(between) = joined(behind, before) {
            add_around(
                p,
                of.written.range,
                before,
                &between,
                behind,
                &mut batch,
                sheet,
            );
            return batch.put(sheet);
        }
    }
    for k in 0..of.written.range.count {
        let word = object_word(p, of.written.range.first as usize + k as usize);
        if stencil.fits {
            stencil.add(word, &mut batch, sheet);
        } else {
            batch.put(sheet);
            draw_instance(p, scope, Instance { depth, word }, literal, sheet);
        }
    }
    batch.put(sheet);
}

/// Adds the word of each object between the same two texts to a batch; the one behind a word together with the one before the next.
fn add_around(
    p: &Pddl,
    range: Range,
    before: &[u8],
    between: &Piece,
    behind: &[u8],
    batch: &mut Batch,
    sheet: &mut Sheet<'_>,
)
    requires between { between.now.items ≡ behind.now ++ before.now }
    ensures { Added (of_each (word_between p.now before.now behind.now) (numbers range.first range.count))
        batch.old batch.new sheet.old sheet.new }
{
    if range.count == 0 {
        return;
    }
    let first = range.first as usize;
    batch.add(before, sheet);
    batch.add(object_word(p, first), sheet);
    for k in 1..range.count {
        batch.add(between.as_slice(), sheet);
        batch.add(object_word(p, first + k as usize), sheet);
    }
    batch.add(behind, sheet);
}

/// Counts them, of which there is one at least: each has its own bytes, which are those of an instance with no letter
/// in place of the variable, and for each such place the letters of its object.
fn count_instances(
    p: &Pddl,
    scope: &Scope<'_>,
    of: Instances,
    literal: &Literal<'_>,
    sheet: &mut Sheet<'_>,
)
    requires measured { IsMeasured p.now of.written }
    requires some { 0 < of.written.range.count }
    requires over { sheet.old.whole ≡ false }
    ensures { Wrote (literals_text p.now scope.now of literal.now) sheet.old sheet.new }
{
    let before = sheet.counted();
    let nothing = Instance {
        depth: of.depth,
        word: b"",
    };
    draw_instance(p, scope, nothing, literal, sheet);
    let own = sheet.counted() - before;
    let others = u64::from(of.written.range.count - 1);
    let letters = holes(literal, of.depth).saturating_mul(of.written.letters);
    sheet.skip(others.saturating_mul(own).saturating_add(letters));
}
