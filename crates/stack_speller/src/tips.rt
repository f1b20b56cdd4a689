ghost use Rattle.std.specs.Prelude.{◌≡◌, ◌+◌, ◌-◌, IfOk};
ghost use Rattle.stack_speller.specs.Tips as spec;

use htn_base::Memory;
use plan_model::Compiled;
use tree_core::{Label, Tree};

/// How many come in the place of a node: the children of the method by which it is decomposed, if it is.
pub(crate) fn child_count(c: &Compiled, tree: &Tree, node: u32) -> usize
    ensures count { result ≡ spec.count_at c.now tree.now node }
{
    match tree.label(node) {
        Some(Label::Abstract { method, .. }) => match c.methods.get(*method as usize) {
            Some(plan) => plan.schema.children.len(),
            None => 0,
        },
        _ => 0,
    }
}

/// The tip when a node at the tip is taken and so many come in its place. A tip past 4,294,967,295 wants memory.
pub(crate) fn next_tip(tip: u32, children: usize) -> Result<u32, Memory>
    ensures next { IfOk result (λ next. next ≡ (tip - 1) + children) }
{
    match u32::try_from(children) {
        Ok(children) => tip.saturating_sub(1).checked_add(children).ok_or(Memory),
        Err(_) => Err(Memory),
    }
}
