ghost use Rattle.pddl_printer.specs.Batches.{Added};
ghost use Rattle.pddl_printer.specs.Texts.{kind_text, parent_text, object_text};
ghost use Rattle.pddl_printer.specs.Texts.{param_text, spaced_param_text, variables_text};

use crate::batch::Batch;
use crate::items::{Item, add_items};
use crate::words::{name_word, type_word};
use plan_model::{Object, Param, Parent, Pddl};
use text_forms::sheets::Sheet;

/// Adds a type, which may be a union: of one type its word, of more `(either A B ..)`.
fn add_kind(p: &Pddl, ty: u32, batch: &mut Batch, sheet: &mut Sheet<'_>)
    ensures { Added (kind_text p.now ty) batch.old batch.new sheet.old sheet.new }
{
    match p.types.union_at(ty) {
        None => batch.add(type_word(p, ty), sheet),
        Some(union) => match union.as_slice() {
            [] => {}
            [ty] => batch.add(type_word(p, *ty), sheet),
            types => {
                batch.add(b"(either", sheet);
                for ty in types {
                    batch.add(b" ", sheet);
                    batch.add(type_word(p, *ty), sheet);
                }
                batch.add(b")", sheet);
            }
        },
    }
}

/// Adds a variable with its type, as `?x - T`.
fn add_param(p: &Pddl, param: Param, batch: &mut Batch, sheet: &mut Sheet<'_>)
    ensures { Added (param_text p.now param) batch.old batch.new sheet.old sheet.new }
{
    batch.add(b"?", sheet);
    batch.add(name_word(p, param.name), sheet);
    batch.add(b" - ", sheet);
    add_kind(p, param.ty, batch, sheet);
}

impl Item for Param {
    ghost text = { spaced_param_text };

    fn add(&self, p: &Pddl, batch: &mut Batch, sheet: &mut Sheet<'_>) {
        batch.add(b" ", sheet);
        add_param(p, *self, batch, sheet);
    }
}

/// Adds a list of variables with their types to a batch, behind a space, with a space between two.
pub fn add_variables(p: &Pddl, params: &[Param], batch: &mut Batch, sheet: &mut Sheet<'_>)
    ensures { Added (variables_text p.now params.now) batch.old batch.new sheet.old sheet.new }
{
    batch.add(b" (", sheet);
    if let Some((first, rest)) = params.split_first() {
        add_param(p, *first, batch, sheet);
        add_items(p, rest, batch, sheet);
    }
    batch.add(b")", sheet);
}

impl Item for Parent {
    ghost text = { parent_text };

    fn add(&self, p: &Pddl, batch: &mut Batch, sheet: &mut Sheet<'_>) {
        batch.add(b" ", sheet);
        batch.add(type_word(p, self.child), sheet);
        batch.add(b" - ", sheet);
        batch.add(type_word(p, self.parent), sheet);
    }
}

impl Item for Object {
    ghost text = { object_text };

    fn add(&self, p: &Pddl, batch: &mut Batch, sheet: &mut Sheet<'_>) {
        batch.add(b" ", sheet);
        batch.add(name_word(p, self.name), sheet);
        batch.add(b" - ", sheet);
        batch.add(type_word(p, self.ty), sheet);
    }
}
