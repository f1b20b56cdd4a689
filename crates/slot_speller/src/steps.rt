ghost use Rattle.std.specs.Prelude.{◌≡◌, ◌<◌, ◌+◌, ◌^◌, map, IfSome};
ghost use Rattle.std.specs.Option.{option_copied};
ghost use Rattle.htn_base.specs.Escapes.{escaped, slot_word};
ghost use Rattle.plan_text.specs.Printing.{args_text, line_text};
ghost use Rattle.text_forms.specs.sheets.Sheets.{Wrote};
ghost use Rattle.slot_speller.specs.Steps as spec;

use crate::children::{after, plan_of};
use crate::slots::Slots;
use crate::words::{objects, put_name, put_objects, put_slot};
use htn_base::NameTable;
use plan_model::{Compiled, MethodPlan};
use text_forms::sheets::Sheet;
use tree_core::Tree;

/// Puts the step of a node on a line of its own.
pub(crate) fn put_step(
    c: &Compiled,
    words: &NameTable,
    tree: &Tree,
    slots: &Slots,
    node: u32,
    sheet: &mut Sheet<'_>,
)
    requires { words.now ≡ map escaped c.now.hddl.names }
    ensures { Wrote (line_text (spec.step_at c.now tree.now slots.now.by_node.items node)) sheet.old sheet.new }
{
    sheet.put(b"(");
    put_name(c, words, tree, node, sheet);
    put_slot(slots.at(node), sheet);
    put_new(tree, slots, node, plan_of(c, tree, node), sheet);
    put_objects(c, words, objects(c, tree, node), sheet);
    sheet.put(b")\n");
}

/// Puts the slots of the node's children other than the heir.
fn put_new(tree: &Tree, slots: &Slots, node: u32, plan: Option<&MethodPlan>, sheet: &mut Sheet<'_>)
    requires { IfSome plan (λ plan. node + 1 < 2 ^ 32) }
    ensures { Wrote (args_text (map slot_word
        (spec.new_by tree.now slots.now.by_node.items node (option_copied plan.entry)))) sheet.old sheet.new }
{
    let Some(plan) = plan else {
        return;
    };
    let Some(heir) = plan.heir else {
        return;
    };
    let mut child = node + 1;
    for number in 0..plan.schema.children.len() {
        if number != heir as usize {
            put_slot(slots.at(child), sheet);
        }
        child = after(tree, child);
    }
}
