ghost use Rattle.std.specs.Prelude.{◌<◌};
ghost use Rattle.pddl_printer.specs.Batches.{Added};
ghost use Rattle.pddl_printer.specs.LowestFree.{below, is_lowest, lowest_body, lowest_of};
ghost use Rattle.pddl_printer.specs.Texts.{formula_text, formulas_text};
ghost use Rattle.text_forms.specs.sheets.Sheets.{Wrote};

use crate::batch::Batch;
use crate::terms::add_applied;
use crate::typed_lists::add_variables;
use crate::words::predicate_word;
use plan_model::{Param, Pddl, Scope, Term};
use text_forms::sheets::Sheet;

/// How it is said of variables that each has the lowest free object but for those of the variables before it: by the predicates of
/// what is free and of what is lower, and by another variable, which is quantified and has the number `x`.
#[derive(Clone, Copy)]
pub struct Lowest {
    pub free: u32,
    pub less: u32,
    pub other: Param,
    pub x: u32,
}

/// Puts it for each of the variables 1 to `spare`, if it is said of them, each behind a space.
pub(crate) fn put_lowest(
    p: &Pddl,
    scope: &Scope<'_>,
    lowest: Option<Lowest>,
    spare: u32,
    sheet: &mut Sheet<'_>,
)
    ensures { Wrote (formulas_text p.now scope.now (lowest_of lowest spare)) sheet.old sheet.new }
{
    if let Some(lowest) = lowest {
        let mut batch = Batch::new();
        for k in 0..spare {
            add_lowest(p, scope, lowest, 1 + k, &mut batch, sheet);
        }
        batch.put(sheet);
    }
}

/// Adds it for variable `k` to a batch.
fn add_lowest(
    p: &Pddl,
    scope: &Scope<'_>,
    lowest: Lowest,
    k: u32,
    batch: &mut Batch,
    sheet: &mut Sheet<'_>,
)
    requires some { 0 < k }
    ensures { Added (formula_text p.now scope.now (is_lowest lowest k)) batch.old batch.new sheet.old sheet.new }
{
    let params = [lowest.other];
    batch.add(b" (forall", sheet);
    add_variables(p, &params, batch, sheet);
    let within = Scope::Within(scope, &params);
    add_body(p, &within, lowest, k, batch, sheet);
    batch.add(b")", sheet);
}

/// Adds that what is free and lower is the object of a variable before `k`.
fn add_body(
    p: &Pddl,
    scope: &Scope<'_>,
    lowest: Lowest,
    k: u32,
    batch: &mut Batch,
    sheet: &mut Sheet<'_>,
)
    requires some { 0 < k }
    ensures { Added (formula_text p.now scope.now (lowest_body lowest k)) batch.old batch.new sheet.old sheet.new }
{
    if k == 1 {
        batch.add(b" (not", sheet);
        add_below(p, scope, lowest, k, batch, sheet);
        batch.add(b")", sheet);
    } else {
        batch.add(b" (imply", sheet);
        add_below(p, scope, lowest, k, batch, sheet);
        batch.add(b" (or", sheet);
        for j in 0..k - 1 {
            let both = [Term::Var(lowest.x), Term::Var(1 + j)];
            add_applied(p, scope, b"=", &both, batch, sheet);
        }
        batch.add(b")", sheet);
        batch.add(b")", sheet);
    }
}

/// Adds that the other variable's object is free, and lower than that of variable `k`.
fn add_below(
    p: &Pddl,
    scope: &Scope<'_>,
    lowest: Lowest,
    k: u32,
    batch: &mut Batch,
    sheet: &mut Sheet<'_>,
)
    ensures { Added (formula_text p.now scope.now (below lowest k)) batch.old batch.new sheet.old sheet.new }
{
    let other = Term::Var(lowest.x);
    batch.add(b" (and", sheet);
    add_applied(
        p,
        scope,
        predicate_word(p, lowest.free),
        &[other],
        batch,
        sheet,
    );
    let less = predicate_word(p, lowest.less);
    add_applied(p, scope, less, &[other, Term::Var(k)], batch, sheet);
    batch.add(b")", sheet);
}
