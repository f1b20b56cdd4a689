ghost use Rattle.std.specs.Prelude.{IfSome};
ghost use Rattle.pddl_printer.specs.ActionLines.{action_start, action_end};
ghost use Rattle.pddl_printer.specs.Measured.{IsMeasured, range_of};
ghost use Rattle.pddl_printer.specs.Texts.{predicate_text, condition_text, action_text};
ghost use Rattle.text_forms.specs.sheets.Sheets.{Wrote};

use crate::batch::Batch;
use crate::each_object::Instances;
use crate::effects::put_effect;
use crate::formulas::put_formula;
use crate::items::{Item, add_items};
use crate::typed_lists::add_variables;
use crate::words::name_word;
use crate::written::Written;
use crate::written_conditions::put_written_condition;
use crate::written_effects::put_written_effect;
use htn_base::Name;
use plan_model::{ActionSchema, Effect, Formula, Param, Pddl, Predicate, Scope};
use text_forms::sheets::Sheet;

impl Item for Predicate {
    ghost text = { predicate_text };

    fn add(&self, p: &Pddl, batch: &mut Batch, sheet: &mut Sheet<'_>) {
        batch.add(b" (", sheet);
        batch.add(name_word(p, self.name), sheet);
        add_items(p, self.params.as_slice(), batch, sheet);
        batch.add(b")", sheet);
    }
}

/// Puts a condition behind a space, as it is or with its quantifiers over the range written out.
pub(crate) fn put_condition(
    p: &Pddl,
    scope: &Scope<'_>,
    written: Option<Written>,
    depth: usize,
    formula: &Formula,
    sheet: &mut Sheet<'_>,
)
    requires measured { IfSome written (IsMeasured p.now) }
    ensures { Wrote (condition_text p.now scope.now (range_of written) depth formula.now) sheet.old sheet.new }
{
    match written {
        Some(written) => {
            put_written_condition(p, scope, Instances { written, depth }, formula, sheet);
        }
        None => put_formula(p, scope, formula, sheet),
    }
}

/// Puts an action on a line of its own, as it is or with its quantifiers over the range written out.
pub fn put_action(p: &Pddl, written: Option<Written>, action: &ActionSchema, sheet: &mut Sheet<'_>)
    requires measured { IfSome written (IsMeasured p.now) }
    ensures put { Wrote (action_text p.now (range_of written) action.now) sheet.old sheet.new }
{
    let params = action.params.as_slice();
    let scope = Scope::Within(&Scope::Empty, params);
    put_action_start(p, action.name, params, sheet);
    put_condition(p, &scope, written, params.len(), &action.pre, sheet);
    put_action_end(p, written, params, &action.eff, sheet);
}

/// Puts the part of an action's line before its condition.
pub(crate) fn put_action_start(p: &Pddl, name: Name, params: &[Param], sheet: &mut Sheet<'_>)
    ensures { Wrote (action_start p.now params.now name) sheet.old sheet.new }
{
    sheet.put(b" (:action ");
    sheet.put(name_word(p, name));
    sheet.put(b" :parameters");
    let mut batch = Batch::new();
    add_variables(p, params, &mut batch, sheet);
    batch.put(sheet);
    sheet.put(b" :precondition");
}

/// Puts the part of an action's line behind its condition, the effect as it is or with its quantifiers over the range written out.
pub(crate) fn put_action_end(
    p: &Pddl,
    written: Option<Written>,
    params: &[Param],
    effect: &Effect,
    sheet: &mut Sheet<'_>,
)
    requires measured { IfSome written (IsMeasured p.now) }
    ensures { Wrote (action_end p.now params.now (range_of written) effect.now) sheet.old sheet.new }
{
    let scope = Scope::Within(&Scope::Empty, &*params);
    sheet.put(b" :effect");
    match written {
        Some(written) => {
            let depth = params.len();
            put_written_effect(p, &scope, Instances { written, depth }, effect, sheet);
        }
        None => put_effect(p, &scope, effect, sheet),
    }
    sheet.put(b")\n");
}
