ghost use Rattle.pddl_printer.specs.ConditionTexts.{written_text, parts_text, SaysOfEach};
ghost use Rattle.pddl_printer.specs.Measured.{IsMeasured};
ghost use Rattle.text_forms.specs.sheets.Sheets.{Wrote};

use crate::each_object::{Instances, is_over, put_each};
use crate::formulas::put_formula;
use crate::instances::Literal;
use crate::object_range::Range;
use plan_model::{Formula, Pddl, Scope};
use text_forms::sheets::Sheet;

/// Puts a condition behind a space, with its quantifiers over the range written out.
pub(crate) fn put_written_condition(
    p: &Pddl,
    scope: &Scope<'_>,
    of: Instances,
    formula: &Formula,
    sheet: &mut Sheet<'_>,
)
    requires measured { IsMeasured p.now of.written }
    ensures { Wrote (written_text p.now scope.now of formula.now) sheet.old sheet.new }
{
    match formula {
        Formula::And(parts) => {
            sheet.put(b" (and");
            put_condition_parts(p, scope, of, parts.as_slice(), sheet);
            sheet.put(b")");
        }
        _ => put_formula(p, scope, formula, sheet),
    }
}

/// Puts the parts of a conjunction, each behind a space.
pub(crate) fn put_condition_parts(
    p: &Pddl,
    scope: &Scope<'_>,
    of: Instances,
    parts: &[Formula],
    sheet: &mut Sheet<'_>,
)
    requires measured { IsMeasured p.now of.written }
    ensures { Wrote (parts_text p.now scope.now of parts.now) sheet.old sheet.new }
{
    for part in parts {
        match literal_of(of.written.range, part) {
            Some(literal) => put_each(p, scope, of, &literal, sheet),
            None => put_formula(p, scope, part, sheet),
        }
    }
}

/// What a part of a conjunction says of each object of the range, if it is a quantifier over them that is written out.
fn literal_of(range: Range, part: &Formula) -> Option<Literal<'_>>
    ensures { SaysOfEach range part.now result }
{
    let Formula::Forall(params, body) = part else {
        return None;
    };
    if !is_over(range, params.as_slice()) {
        return None;
    }
    match body.get() {
        Formula::Holds(atom) => Some(Literal::Held(atom)),
        Formula::Not(denied) => match denied.get() {
            Formula::Holds(atom) => Some(Literal::Denied(atom)),
            _ => None,
        },
        _ => None,
    }
}
