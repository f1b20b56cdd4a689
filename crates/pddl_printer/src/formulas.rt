ghost use Rattle.pddl_printer.specs.Texts.{formula_text, formulas_text, quantified_text};
ghost use Rattle.pddl_printer.specs.Batches.{Added};
ghost use Rattle.text_forms.specs.sheets.Sheets.{Wrote};

use crate::batch::Batch;
use crate::terms::{add_applied, add_atom};
use crate::typed_lists::add_variables;
use plan_model::{Formula, Param, Pddl, Scope};
use text_forms::sheets::Sheet;

/// Puts a formula behind a space.
pub fn put_formula(p: &Pddl, scope: &Scope<'_>, formula: &Formula, sheet: &mut Sheet<'_>)
    ensures { Wrote (formula_text p.now scope.now formula.now) sheet.old sheet.new }
{
    let mut batch = Batch::new();
    add_formula(p, scope, formula, &mut batch, sheet);
    batch.put(sheet);
}

/// Puts formulas, each behind a space.
pub(crate) fn put_formulas(p: &Pddl, scope: &Scope<'_>, formulas: &[Formula], sheet: &mut Sheet<'_>)
    ensures { Wrote (formulas_text p.now scope.now formulas.now) sheet.old sheet.new }
{
    let mut batch = Batch::new();
    add_formulas(p, scope, formulas, &mut batch, sheet);
    batch.put(sheet);
}

/// Adds a formula to a batch, behind a space.
#[cycle(formulas)]
pub fn add_formula(
    p: &Pddl,
    scope: &Scope<'_>,
    formula: &Formula,
    batch: &mut Batch,
    sheet: &mut Sheet<'_>,
)
    ensures { Added (formula_text p.now scope.now formula.now) batch.old batch.new sheet.old sheet.new }
{
    match formula {
        Formula::Holds(atom) => add_atom(p, scope, atom, batch, sheet),
        Formula::Equal(left, right) => {
            add_applied(p, scope, b"=", &[*left, *right], batch, sheet);
        }
        Formula::Not(part) => {
            batch.add(b" (not", sheet);
            add_formula(p, scope, part.get(), batch, sheet);
            batch.add(b")", sheet);
        }
        Formula::And(parts) => {
            batch.add(b" (and", sheet);
            add_formulas(p, scope, parts.as_slice(), batch, sheet);
            batch.add(b")", sheet);
        }
        Formula::Or(parts) => {
            batch.add(b" (or", sheet);
            add_formulas(p, scope, parts.as_slice(), batch, sheet);
            batch.add(b")", sheet);
        }
        Formula::Imply(premise, conclusion) => {
            batch.add(b" (imply", sheet);
            add_formula(p, scope, premise.get(), batch, sheet);
            add_formula(p, scope, conclusion.get(), batch, sheet);
            batch.add(b")", sheet);
        }
        Formula::Forall(params, body) => {
            let params = params.as_slice();
            add_quantified(p, scope, b" (forall", params, body.get(), batch, sheet);
        }
        Formula::Exists(params, body) => {
            let params = params.as_slice();
            add_quantified(p, scope, b" (exists", params, body.get(), batch, sheet);
        }
    }
}

/// Adds formulas to a batch, each behind a space.
#[cycle(formulas)]
fn add_formulas(
    p: &Pddl,
    scope: &Scope<'_>,
    formulas: &[Formula],
    batch: &mut Batch,
    sheet: &mut Sheet<'_>,
)
    ensures { Added (formulas_text p.now scope.now formulas.now) batch.old batch.new sheet.old sheet.new }
{
    for formula in formulas {
        add_formula(p, scope, formula, batch, sheet);
    }
}

/// Adds what opens a quantifier to a batch, and behind it its variables and its part, in which they are in force too.
#[cycle(formulas)]
fn add_quantified(
    p: &Pddl,
    scope: &Scope<'_>,
    opening: &[u8],
    params: &[Param],
    part: &Formula,
    batch: &mut Batch,
    sheet: &mut Sheet<'_>,
)
    ensures { Added (quantified_text p.now scope.now params.now opening.now part.now) batch.old batch.new sheet.old sheet.new }
{
    batch.add(opening, sheet);
    add_variables(p, params, batch, sheet);
    let within = Scope::Within(&*scope, &*params);
    add_formula(p, &within, part, batch, sheet);
    batch.add(b")", sheet);
}
