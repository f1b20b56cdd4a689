ghost use Rattle.std.specs.Prelude.{◌≡◌, ◌<◌, ◌+◌, ◌^◌, IfSome};
ghost use Rattle.std.specs.Option.{option_copied};
ghost use Rattle.tree_core.specs.Runs.{label_in};
ghost use Rattle.slot_speller.specs.Children as spec;

use plan_model::{Compiled, MethodPlan};
use tree_core::{Label, Tree};

/// The method by which the node is decomposed, if it is.
pub(crate) fn plan_of<'c>(c: &'c Compiled, tree: &Tree, node: u32) -> Option<&'c MethodPlan>
    ensures plan { option_copied result ≡ spec.plan_by c.now (label_in tree.now node) }
    ensures within { IfSome result (λ plan. node + 1 < 2 ^ 32) }
{
    if node >= tree.size() {
        return None;
    }
    match tree.label(node) {
        Some(Label::Abstract { method, .. }) => c.methods.get(*method as usize),
        _ => None,
    }
}

/// The address after the subtree of a node.
pub(crate) fn after(tree: &Tree, node: u32) -> u32
    ensures { result ≡ spec.after_in tree.now node }
{
    tree.end(node).unwrap_or(node)
}
