ghost use Rattle.pddl_printer.specs.Texts.{effect_text};
ghost use Rattle.pddl_printer.specs.Batches.{Added};
ghost use Rattle.text_forms.specs.sheets.Sheets.{Wrote};

use crate::batch::Batch;
use crate::formulas::add_formula;
use crate::terms::add_atom;
use crate::typed_lists::add_variables;
use plan_model::{Effect, Param, Pddl, Scope};
use text_forms::sheets::Sheet;

/// Puts an effect behind a space.
pub(crate) fn put_effect(p: &Pddl, scope: &Scope<'_>, effect: &Effect, sheet: &mut Sheet<'_>)
    ensures { Wrote (effect_text p.now scope.now effect.now) sheet.old sheet.new }
{
    let mut batch = Batch::new();
    add_effect(p, scope, effect, &mut batch, sheet);
    batch.put(sheet);
}

/// Adds an effect to a batch, behind a space.
#[cycle(effects)]
fn add_effect(
    p: &Pddl,
    scope: &Scope<'_>,
    effect: &Effect,
    batch: &mut Batch,
    sheet: &mut Sheet<'_>,
)
    ensures { Added (effect_text p.now scope.now effect.now) batch.old batch.new sheet.old sheet.new }
{
    match effect {
        Effect::Add(atom) => add_atom(p, scope, atom, batch, sheet),
        Effect::Delete(atom) => {
            batch.add(b" (not", sheet);
            add_atom(p, scope, atom, batch, sheet);
            batch.add(b")", sheet);
        }
        Effect::And(parts) => {
            batch.add(b" (and", sheet);
            for part in parts.as_slice() {
                add_effect(p, scope, part, batch, sheet);
            }
            batch.add(b")", sheet);
        }
        Effect::Forall(params, body) => {
            let params = params.as_slice();
            batch.add(b" (forall", sheet);
            add_variables(p, params, batch, sheet);
            let within = Scope::Within(&*scope, &*params);
            add_effect(p, &within, body.get(), batch, sheet);
            batch.add(b")", sheet);
        }
        Effect::When(condition, body) => {
            batch.add(b" (when", sheet);
            add_formula(p, scope, condition, batch, sheet);
            add_effect(p, scope, body.get(), batch, sheet);
            batch.add(b")", sheet);
        }
    }
}
