ghost use Rattle.std.specs.Prelude.{◌≡◌, ◌++◌, OnOk, OnErr};
ghost use Rattle.plan_texts.specs.PlanText.{plan_text, ArePrintableSteps, SpellsPlan};
ghost use Rattle.plan_text.specs.Printing.{line_text};
ghost use Rattle.text_forms.specs.sheets.Sheets.{Wrote, AppendsPrefix};

use htn_base::{Memory, Text};
use plan_model::GroundAction;
use text_forms::sheets::Sheet;

// Puts a step on a line of its own.
fn put_step(step: &GroundAction, sheet: &mut Sheet<'_>)
    ensures { Wrote (line_text step.now) sheet.old sheet.new }
{
    sheet.put(b"(");
    sheet.put(step.name.as_slice());
    for arg in step.args.as_slice() {
        sheet.put(b" ");
        sheet.put(arg.as_slice());
    }
    sheet.put(b")\n");
}

/// Puts a plan on a sheet, each step as `(name arg arg)` on a line of its own.
pub fn put_plan(plan: &[GroundAction], sheet: &mut Sheet<'_>)
    ensures printed { Wrote (plan_text plan.now) sheet.old sheet.new }
{
    for step in plan {
        put_step(step, sheet);
    }
}

/// Appends a plan, each step as `(name arg arg)` on a line of its own. After `Memory` the text has a prefix of what was to be
/// appended.
pub fn print(plan: &[GroundAction], into: &mut Text) -> Result<(), Memory>
    ensures printed { OnOk result (into.new ≡ into.old ++ plan_text plan.now) }
    ensures prefix { OnErr result (AppendsPrefix (plan_text plan.now) into.old into.new) }
    ensures spelled { ArePrintableSteps plan.now → SpellsPlan (plan_text plan.now) plan.now }
{
    let mut sheet = Sheet::new(into, u64::MAX);
    put_plan(plan, &mut sheet);
    sheet.complete()
}
