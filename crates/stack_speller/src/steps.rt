ghost use Rattle.std.specs.Prelude.{◌≡◌, ◌<◌, ◌+◌, ◌-◌, ◌^◌, map};
ghost use Rattle.htn_base.specs.Escapes.{escaped, slot_word};
ghost use Rattle.plan_text.specs.Printing.{args_text, line_text};
ghost use Rattle.text_forms.specs.sheets.Sheets.{Wrote};
ghost use Rattle.stack_encoding.specs.StackSpelling.{cells_of};
ghost use Rattle.stack_speller.specs.StackSteps as spec;
ghost use Rattle.stack_speller.specs.Tips.{count_at};

use crate::words::{objects, put_cell, put_name, put_objects};
use htn_base::NameTable;
use plan_model::Compiled;
use text_forms::sheets::Sheet;
use tree_core::Tree;

/// Puts the step of a node at the tip, in whose place so many come, on a line of its own.
pub(crate) fn put_step(
    c: &Compiled,
    words: &NameTable,
    tree: &Tree,
    node: u32,
    tip: u32,
    children: usize,
    sheet: &mut Sheet<'_>,
)
    requires words { words.now ≡ map escaped c.now.hddl.names }
    requires count { children ≡ count_at c.now tree.now node }
    requires few { (tip - 1) + children < 2 ^ 32 }
    ensures step { Wrote (line_text (spec.step_at c.now tree.now tip node)) sheet.old sheet.new }
{
    sheet.put(b"(");
    put_name(c, words, tree, node, sheet);
    put_cells(tip, children, sheet);
    put_objects(c, words, objects(c, tree, node), sheet);
    sheet.put(b")\n");
}

/// Puts the cells that the step of a node at the tip names: where nothing comes in its place, the one below and its own; else those of
/// the children, from its own on.
fn put_cells(tip: u32, children: usize, sheet: &mut Sheet<'_>)
    requires few { (tip - 1) + children < 2 ^ 32 }
    ensures cells { Wrote (args_text (map slot_word (cells_of tip children))) sheet.old sheet.new }
{
    if children == 0 {
        put_cell(tip.saturating_sub(1), sheet);
        put_cell(tip, sheet);
        return;
    }
    for number in 0..children {
        put_cell(tip + number as u32, sheet);
    }
}
