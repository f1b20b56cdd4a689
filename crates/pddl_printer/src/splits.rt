ghost use Rattle.std.specs.Prelude.{IfSome};
ghost use Rattle.pddl_printer.specs.Measured.{IsMeasured, range_of};
ghost use Rattle.pddl_printer.specs.Splits.{split_action};
ghost use Rattle.pddl_printer.specs.Texts.{action_text, parts_text};
ghost use Rattle.text_forms.specs.sheets.Sheets.{Wrote};

use crate::each_object::Instances;
use crate::formulas::put_formulas;
use crate::lowest::{Lowest, put_lowest};
use crate::pairs::put_all_differ;
use crate::schemas::{put_action_end, put_action_start};
use crate::written::Written;
use crate::written_conditions::put_condition_parts;
use htn_base::Name;
use plan_model::{Effect, Formula, Param, Pddl, Scope};
use text_forms::sheets::Sheet;

/// An action whose condition is a conjunction: of some parts, of one part for each two of its variables 1 to `spare`, that they
/// differ, of more parts, and, where it is asked, of one part for each of these variables, that it has the lowest free object but
/// for those before it. What is said of `spare` variables is as long as its square, so it is never made.
#[derive(Clone, Copy)]
pub struct Split<'a> {
    pub name: Name,
    pub params: &'a [Param],
    pub before: &'a [Formula],
    pub spare: u32,
    pub behind: &'a [Formula],
    pub lowest: Option<Lowest>,
    pub eff: &'a Effect,
}

/// Puts such an action on a line of its own, as it is or with its quantifiers over the range written out.
pub fn put_split(p: &Pddl, written: Option<Written>, split: &Split<'_>, sheet: &mut Sheet<'_>)
    requires measured { IfSome written (IsMeasured p.now) }
    ensures put { Wrote (action_text p.now (range_of written) (split_action split.now))
        sheet.old sheet.new }
{
    let scope = Scope::Within(&Scope::Empty, split.params);
    let depth = split.params.len();
    put_action_start(p, split.name, split.params, sheet);
    sheet.put(b" (and");
    put_parts(p, &scope, written, depth, split.before, sheet);
    put_all_differ(p, split.params, split.spare, sheet);
    put_parts(p, &scope, written, depth, split.behind, sheet);
    put_lowest(p, &scope, split.lowest, split.spare, sheet);
    sheet.put(b")");
    put_action_end(p, written, split.params, split.eff, sheet);
}

/// Puts parts of a conjunction, each behind a space, as they are or with their quantifiers over the range written out.
fn put_parts(
    p: &Pddl,
    scope: &Scope<'_>,
    written: Option<Written>,
    depth: usize,
    parts: &[Formula],
    sheet: &mut Sheet<'_>,
)
    requires measured { IfSome written (IsMeasured p.now) }
    ensures { Wrote (parts_text p.now scope.now (range_of written) depth parts.now) sheet.old sheet.new }
{
    match written {
        Some(written) => {
            put_condition_parts(p, scope, Instances { written, depth }, parts, sheet);
        }
        None => put_formulas(p, scope, parts, sheet),
    }
}
