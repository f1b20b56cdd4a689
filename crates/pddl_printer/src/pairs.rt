ghost use Rattle.std.specs.Prelude.{◌≡◌, ◌+◌, false};
ghost use Rattle.plan_model.specs.task_networks.Spelling.{numbers};
ghost use Rattle.pddl_printer.specs.Splits.{row_text, differ_text, open_with, next_with};
ghost use Rattle.text_forms.specs.sheets.Sheets.{Wrote};

use crate::batch::Batch;
use crate::pen::Pen;
use crate::stencil::Stencil;
use crate::words::variable_word;
use plan_model::{Param, Pddl};
use text_forms::sheets::Sheet;

/// Puts for each two of the variables 1 to `spare` that they differ, each behind a space. Where the sheet takes nothing more the rest
/// is counted all at once.
pub(crate) fn put_all_differ(p: &Pddl, params: &[Param], spare: u32, sheet: &mut Sheet<'_>)
    ensures { Wrote (differ_text p.now params.now (numbers 1 spare)) sheet.old sheet.new }
{
    for k in 0..spare {
        if !sheet.is_whole() {
            return count_all_differ(p, params, k + 1, spare - k, sheet);
        }
        put_row(p, params, k + 1, spare - (k + 1), sheet);
    }
}

/// Puts that a variable differs from each of so many behind it, from one stencil where it is not too large: behind the
/// first of these pairs but for its end, the end of each pair with the next one.
fn put_row(p: &Pddl, params: &[Param], variable: u32, count: u32, sheet: &mut Sheet<'_>)
    ensures { Wrote (row_text p.now params.now variable (numbers (variable + 1) count))
        sheet.old sheet.new }
{
    if count == 0 {
        return;
    }
    let next = variable as usize + 1;
    let word = variable_word(p, params, variable as usize);
    draw_open(word, variable_word(p, params, next), sheet);
    let mut stencil = Stencil::new();
    draw_next(word, b"", &mut stencil);
    let mut batch = Batch::new();
    for k in 1..count {
        let other = variable_word(p, params, next + k as usize);
        if stencil.fits {
            stencil.add(other, &mut batch, sheet);
        } else {
            batch.put(sheet);
            draw_next(word, other, sheet);
        }
    }
    batch.put(sheet);
    sheet.put(b"))");
}

/// Draws that two variables of these words differ, but for the end, with a place for the second word.
fn draw_open<P: Pen>(word: &[u8], other: &[u8], pen: &mut P)
    ensures { P.draws (open_with word.now) other.now pen.old pen.new }
{
    pen.draw(b" (not (= ?");
    pen.draw(word);
    pen.draw(b" ?");
    pen.place(other);
}

/// Draws the end of one pair, and the next pair but for its end.
fn draw_next<P: Pen>(word: &[u8], other: &[u8], pen: &mut P)
    ensures { P.draws (next_with word.now) other.now pen.old pen.new }
{
    pen.draw(b"))");
    draw_open(word, other, pen);
}

/// Counts for each two of so many variables that they differ: 14 bytes and the two words, so each word as often as there are others.
fn count_all_differ(p: &Pddl, params: &[Param], first: u32, count: u32, sheet: &mut Sheet<'_>)
    requires over { sheet.old.whole ≡ false }
    ensures { Wrote (differ_text p.now params.now (numbers first count)) sheet.old sheet.new }
{
    let mut letters: u64 = 0;
    for k in 0..count {
        let word = variable_word(p, params, first as usize + k as usize);
        letters = letters.saturating_add(word.len() as u64);
    }
    let count = u64::from(count);
    let others = count.saturating_sub(1);
    sheet.skip(
        (count * others)
            .saturating_mul(7)
            .saturating_add(others.saturating_mul(letters)),
    );
}
