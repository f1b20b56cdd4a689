ghost use Rattle.std.specs.Prelude.{◌≡◌, ◌↔◌, IsTrue};
ghost use Rattle.plan_model.specs.plan_meaning.Compilation.{AsksSomething};
ghost use Rattle.plan_model.specs.declared.options.Checks.TheVariants.{Leaf, AtOnce};

use plan_model::{Checks, Formula};

/// Whether a check of the condition stands among the children.
pub fn is_checked(checks: &Checks, pre: &Formula) -> bool
    ensures { IsTrue result ↔ ((checks.now ≡ Leaf) × AsksSomething pre.now) }
{
    match checks {
        Checks::Leaf => counts(pre),
        Checks::AtOnce => false,
    }
}

/// Whether the condition is tested where the method is applied.
pub fn is_tested(checks: &Checks, pre: &Formula) -> bool
    ensures { IsTrue result ↔ ((checks.now ≡ AtOnce) × AsksSomething pre.now) }
{
    match checks {
        Checks::Leaf => false,
        Checks::AtOnce => counts(pre),
    }
}

/// Whether the condition is another than the empty conjunction.
fn counts(pre: &Formula) -> bool
    ensures { IsTrue result ↔ AsksSomething pre.now }
{
    match pre {
        Formula::And(parts) => parts.len() != 0,
        _ => true,
    }
}
