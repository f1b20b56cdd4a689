ghost use Rattle.std.specs.Prelude.{◌≡◌, ◌≤◌, length, IfOk};
ghost use Rattle.htn_base.specs.Limits.{most_steps};
ghost use Rattle.tree_core.specs.Tables.{table};
ghost use Rattle.tree_core.specs.Labels.{labels, growths_of};
ghost use Rattle.tree_core.specs.Growths.{AreJoined};
ghost use Rattle.tree_core.specs.Nodes.{rows_of, AreNodesOf};
ghost use Rattle.tree_core.specs.Growing.{OfTree, AreNodes, AreBelow, ArePlaces, AreParents, AreEnds};

use crate::growth::Growth;
use crate::tree::Node;
use htn_base::{List, Memory};
use std::alloc::Global;

// The place of each node's parent, of nodes in preorder.
pub(crate) fn parents_of(
    alloc: Global,
    steps: &[Growth],
    nodes: &[u32],
    places: &[u32],
) -> Result<Vec<Option<u32>>, Memory>
    requires joined { AreJoined labels (growths_of steps.now) }
    requires below { AreBelow (length steps.now) nodes.now }
    requires nodes { OfTree (growths_of steps.now) (AreNodes (length steps.now) nodes.now) }
    requires many { length places.now ≡ length steps.now }
    requires places { ArePlaces (length nodes.now) nodes.now places.now }
    ensures parents { IfOk result (λ parents.
        OfTree (growths_of steps.now) (λ tree order. AreParents parents.items tree)) }
    ensures many { IfOk result (λ parents. length parents.items ≡ length nodes.now) }
{
    let mut parents = Vec::with_capacity(alloc, nodes.len())?;
    for node in nodes {
        let parent = match steps[*node as usize].parent {
            Some(parent) => Some(places[parent as usize]),
            None => None,
        };
        parents.push(parent)?;
    }
    Ok(parents)
}

// The nodes in preorder, with the place of each one's parent, and where its subtree ends.
pub(crate) fn nodes_of(
    alloc: Global,
    steps: &[Growth],
    nodes: &[u32],
    parents: &[Option<u32>],
    ends: &[u32],
) -> Result<List<Node>, Memory>
    requires few { length nodes.now ≤ most_steps }
    requires below { AreBelow (length steps.now) nodes.now }
    requires nodes { OfTree (growths_of steps.now) (AreNodes (length steps.now) nodes.now) }
    requires many { length parents.now ≡ length nodes.now }
    requires ends_many { length ends.now ≡ length nodes.now }
    requires parents { OfTree (growths_of steps.now) (λ tree order. AreParents parents.now tree) }
    requires ends { OfTree (growths_of steps.now) (λ tree order. AreEnds 0 ends.now tree) }
    ensures nodes { IfOk result (AreNodesOf steps.now) }
    ensures rows { IfOk result (λ kept.
        OfTree (growths_of steps.now) (λ tree order. rows_of steps.now kept ≡ table labels tree)) }
{
    let mut kept = List::with_room(alloc, nodes.len())?;
    for (place, node) in nodes.iter().enumerate() {
        kept.push(Node {
            growth: *node,
            parent: parents[place].unwrap_or(0),
            end: ends[place],
        })?;
    }
    Ok(kept)
}

// The numbers as a list.
pub(crate) fn list_of(alloc: Global, numbers: &[u32]) -> Result<List<u32>, Memory>
    ensures equal { IfOk result (λ list. list ≡ numbers.now) }
{
    let mut list = List::with_room(alloc, numbers.len())?;
    for number in numbers {
        list.push(*number)?;
    }
    Ok(list)
}
