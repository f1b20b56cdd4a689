ghost use Rattle.std.specs.Prelude.{ℕ, ◌≡◌, ◌<◌, ◌≤◌, ◌+◌, suc, Some, length, slice_get, IfOk, IfSome};
ghost use Rattle.htn_base.specs.Limits.{most_steps};
ghost use Rattle.tree_core.specs.Labels.{labels, growths_of};
ghost use Rattle.tree_core.specs.Growths.{AreJoined};
ghost use Rattle.tree_core.specs.Growing.{AreChildren, OfTree, IsPlaced, EndsAt, IsNodeAt, AreNodes, AreBelow, ArePlaces};

use crate::children::Children;
use crate::growth::Growth;
use htn_base::Memory;
use std::alloc::Global;

// The growths in the preorder of their nodes.
pub(crate) fn in_preorder(
    alloc: Global,
    steps: &[Growth],
    children: &Children,
) -> Result<Vec<u32>, Memory>
    requires few { length steps.now ≤ most_steps }
    requires joined { AreJoined labels (growths_of steps.now) }
    requires children { AreChildren (growths_of steps.now) children.now }
    ensures many { IfOk result (λ nodes. length nodes.items ≡ length steps.now) }
    ensures below { IfOk result (λ nodes. AreBelow (length steps.now) nodes.items) }
    ensures nodes { IfOk result (λ nodes.
        OfTree (growths_of steps.now) (AreNodes (length steps.now) nodes.items)) }
{
    let mut nodes = Vec::with_capacity(alloc, steps.len())?;
    let mut next = Some(0);
    for _step in 0..steps.len() {
        if let Some(place) = next {
            nodes.push(place)?;
            next = following(steps, children, place);
        }
    }
    Ok(nodes)
}

// The growth of the node after this one's in preorder.
fn following(steps: &[Growth], children: &Children, place: u32) -> Option<u32>
    requires few { length steps.now ≤ most_steps }
    requires joined { AreJoined labels (growths_of steps.now) }
    requires children { AreChildren (growths_of steps.now) children.now }
    requires place { place < length steps.now }
    ensures below { IfSome result (λ x. x < length steps.now) }
    ensures next { OfTree (growths_of steps.now)
        (λ tree order. (k : ℕ) → IsPlaced tree order place k → IsNodeAt (suc k) result tree order) }
{
    match children.at(place, 0) {
        Some(first) => Some(first),
        None => after_subtree(steps, children, place),
    }
}

// The growth of the node that comes first in preorder after the subtree of this one's.
fn after_subtree(steps: &[Growth], children: &Children, place: u32) -> Option<u32>
    requires few { length steps.now ≤ most_steps }
    requires joined { AreJoined labels (growths_of steps.now) }
    requires children { AreChildren (growths_of steps.now) children.now }
    requires place { place < length steps.now }
    ensures below { IfSome result (λ x. x < length steps.now) }
    ensures next { OfTree (growths_of steps.now)
        (λ tree order. (e : ℕ) → EndsAt tree order place e → IsNodeAt e result tree order) }
{
    let mut node = place;
    while let Some(parent) = steps[node as usize].parent {
        let next = children.at(parent, steps[node as usize].child + 1);
        if next.is_some() {
            return next;
        }
        node = parent;
    }
    None
}

// The place at which each of the numbers stands.
pub(crate) fn places_of(alloc: Global, nodes: &[u32]) -> Result<Vec<u32>, Memory>
    requires few { length nodes.now ≤ most_steps }
    requires below { AreBelow (length nodes.now) nodes.now }
    ensures many { IfOk result (λ places. length places.items ≡ length nodes.now) }
    ensures places { IfOk result (λ places. ArePlaces (length nodes.now) nodes.now places.items) }
{
    let mut places = vec![in alloc; 0_u32; nodes.len()]?;
    for (place, node) in nodes.iter().enumerate() {
        places[*node as usize] = place as u32;
    }
    Ok(places)
}
