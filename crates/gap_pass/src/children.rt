ghost use Rattle.std.specs.Prelude.{ℕ, ◌≡◌, ◌+◌, ◌<◌, Some, IfOk};
ghost use Rattle.tree_core.specs.Runs.{end_in};
ghost use Rattle.gap_pass.specs.Children.{AreChildrenOf, AreAllChildren, children_at};

use htn_base::{List, Memory};
use std::alloc::Global;
use tree_core::Tree;

/// The addresses of the children of each node, in the order of their numbers.
pub(crate) fn all_children(alloc: Global, tree: &Tree) -> Result<List<List<u32>>, Memory>
    ensures { IfOk result (AreAllChildren tree.now) }
{
    let mut all = List::new(alloc);
    for node in 0..tree.size() {
        all.put(children_of(alloc, tree, node))?;
    }
    Ok(all)
}

/// The addresses of a node's children, in the order of their numbers.
fn children_of(alloc: Global, tree: &Tree, node: u32) -> Result<List<u32>, Memory>
    ensures { IfOk result (AreChildrenOf tree.now node) }
{
    let mut children = List::new(alloc);
    let end = tree.end(node).unwrap_or(0);
    let mut at = first_below(node, end);
    while at < end {
        children.push(at)?;
        at = after(tree, at, end);
    }
    Ok(children)
}

// The address at which the first node below a node stands, or the end where there is none.
fn first_below(node: u32, end: u32) -> u32
    ensures { node < end → result ≡ node + 1 }
{
    if node < end { node + 1 } else { end }
}

// The address after the subtree of a node, or the end where it isn't later.
fn after(tree: &Tree, at: u32, end: u32) -> u32
    ensures later { at < end → at < result }
    ensures after { (e : ℕ) → end_in tree.now at ≡ Some e → at < e → result ≡ e }
{
    match tree.end(at) {
        Some(next) => { if next > at { next } else { end } }
        None => end,
    }
}

/// The children of a node, of those of all nodes.
pub(crate) fn children_at(children: &[List<u32>], node: u32) -> &[u32]
    ensures { result.now ≡ children_at children.now node }
{
    match children.get(node as usize) {
        Some(list) => list.as_slice(),
        None => &[],
    }
}
