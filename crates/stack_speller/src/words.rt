ghost use Rattle.std.specs.Prelude.{◌≡◌, ◌∷◌, map, slice_get};
ghost use Rattle.htn_base.specs.Escapes.{escaped, slot_word};
ghost use Rattle.plan_model.specs.plan_meaning.SpelledPlan as plans;
ghost use Rattle.plan_text.specs.Printing.{args_text};
ghost use Rattle.text_forms.specs.sheets.Sheets.{Wrote};
ghost use Rattle.tree_core.specs.Runs.{label_in};
ghost use Rattle.slot_speller.specs.Steps as spec;

use htn_base::{Name, NameTable};
use itoa::Buffer;
use plan_model::Compiled;
use text_forms::sheets::Sheet;
use tree_core::{Label, Tree};

/// The printed word of a name, from those of all names.
fn printed<'w>(c: &Compiled, words: &'w NameTable, name: Name) -> &'w [u8]
    requires { words.now ≡ map escaped c.now.hddl.names }
    ensures { result.now ≡ plans.printed c.now name.number }
{
    match words.text(name) {
        Some(word) => word,
        None => b"htn_u_",
    }
}

/// The printed word of an action.
fn action<'w>(c: &Compiled, words: &'w NameTable, action: u32) -> &'w [u8]
    requires { words.now ≡ map escaped c.now.hddl.names }
    ensures { result.now ≡ plans.action_by c.now (slice_get c.now.hddl.actions action) }
{
    match c.hddl.actions.get(action as usize) {
        Some(action) => printed(c, words, action.name),
        None => &[],
    }
}

/// The printed word of a method.
fn method<'w>(c: &Compiled, words: &'w NameTable, method: u32) -> &'w [u8]
    requires { words.now ≡ map escaped c.now.hddl.names }
    ensures { result.now ≡ plans.method_by c.now (slice_get c.now.methods method) }
{
    match c.methods.get(method as usize) {
        Some(plan) => printed(c, words, plan.schema.name),
        None => &[],
    }
}

/// The printed word of an object.
fn object<'w>(c: &Compiled, words: &'w NameTable, object: u32) -> &'w [u8]
    requires { words.now ≡ map escaped c.now.hddl.names }
    ensures { result.now ≡ plans.object_word c.now object }
{
    match c.hddl.objects.get(object as usize) {
        Some(object) => printed(c, words, object.name),
        None => &[],
    }
}

/// Puts the name of the action that processes what stands at the node.
pub(crate) fn put_name(
    c: &Compiled,
    words: &NameTable,
    tree: &Tree,
    node: u32,
    sheet: &mut Sheet<'_>,
)
    requires { words.now ≡ map escaped c.now.hddl.names }
    ensures { Wrote (spec.name_by c.now (label_in tree.now node)) sheet.old sheet.new }
{
    match tree.label(node) {
        Some(
            Label::Primitive {
                action: number,
                args: _,
            },
        ) => sheet.put(action(c, words, *number)),
        Some(
            Label::Check {
                method: number,
                args: _,
            },
        ) => {
            sheet.put(b"htn_c_");
            sheet.put(method(c, words, *number));
        }
        Some(Label::Abstract { method: number, .. }) => {
            if *number == 0 {
                sheet.put(b"htn_start");
            } else {
                sheet.put(b"htn_m_");
                sheet.put(method(c, words, *number));
            }
        }
        None => {}
    }
}

/// Puts the word of a cell, behind a space.
pub(crate) fn put_cell(cell: u32, sheet: &mut Sheet<'_>)
    ensures { Wrote (32 ∷ slot_word cell) sheet.old sheet.new }
{
    let mut digits = Buffer::new();
    sheet.put(b" htn_s");
    sheet.put(digits.format(cell).as_bytes());
}

/// The objects of what stands at the node.
pub(crate) fn objects<'t>(c: &Compiled, tree: &'t Tree, node: u32) -> &'t [u32]
    ensures { result.now ≡ spec.objects_by c.now (label_in tree.now node) }
{
    match tree.label(node) {
        Some(Label::Primitive { action: _, args }) => args.as_slice(),
        Some(Label::Check { method: _, args }) => args.as_slice(),
        Some(Label::Abstract { method_args, .. }) => method_args.as_slice(),
        None => &[],
    }
}

/// Puts the printed words of objects, each behind a space.
pub(crate) fn put_objects(c: &Compiled, words: &NameTable, objects: &[u32], sheet: &mut Sheet<'_>)
    requires { words.now ≡ map escaped c.now.hddl.names }
    ensures { Wrote (args_text (map (plans.object_word c.now) objects.now)) sheet.old sheet.new }
{
    for number in objects {
        sheet.put(b" ");
        sheet.put(object(c, words, *number));
    }
}
