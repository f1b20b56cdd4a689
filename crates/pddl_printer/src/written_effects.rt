ghost use Rattle.pddl_printer.specs.EffectTexts.{written_text, SaysOfEach};
ghost use Rattle.pddl_printer.specs.Measured.{IsMeasured};
ghost use Rattle.text_forms.specs.sheets.Sheets.{Wrote};

use crate::each_object::{Instances, is_over, put_each};
use crate::effects::put_effect;
use crate::instances::Literal;
use crate::object_range::Range;
use plan_model::{Effect, Formula, Pddl, Scope};
use text_forms::sheets::Sheet;

/// Puts an effect behind a space, with its quantifiers over the range written out.
pub(crate) fn put_written_effect(
    p: &Pddl,
    scope: &Scope<'_>,
    of: Instances,
    whole: &Effect,
    sheet: &mut Sheet<'_>,
)
    requires measured { IsMeasured p.now of.written }
    ensures { Wrote (written_text p.now scope.now of whole.now) sheet.old sheet.new }
{
    match whole {
        Effect::And(parts) => {
            sheet.put(b" (and");
            let parts = parts.as_slice();
            for part in parts {
                match literal_of(of.written.range, part) {
                    Some(literal) => put_each(p, scope, of, &literal, sheet),
                    None => put_effect(p, scope, part, sheet),
                }
            }
            sheet.put(b")");
        }
        _ => put_effect(p, scope, whole, sheet),
    }
}

/// What a part of a conjunction says of each object of the range, if it is a quantifier over them that is written out.
fn literal_of(range: Range, part: &Effect) -> Option<Literal<'_>>
    ensures { SaysOfEach range part.now result }
{
    let Effect::Forall(params, body) = part else {
        return None;
    };
    if !is_over(range, params.as_slice()) {
        return None;
    }
    match body.get() {
        Effect::Delete(atom) => Some(Literal::Denied(atom)),
        Effect::When(condition, change) => match condition {
            Formula::Holds(atom) => match change.get() {
                Effect::Add(added) => Some(Literal::Conditional(atom, added)),
                _ => None,
            },
            _ => None,
        },
        _ => None,
    }
}
