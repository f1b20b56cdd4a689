ghost use Rattle.std.specs.Prelude.{ℕ, ◌≡◌, ◌≤◌, ◌↔◌, Some, length, set, IfOk, OnOk};
ghost use Rattle.plan_texts.specs.SoundlyCompiled.{IsSoundlyCompiled};
ghost use Rattle.kept_front.specs.Later.{AreAllLater};
ghost use Rattle.gap_pass.specs.LatestGaps.{AreLatestOrNone};
ghost use Rattle.gap_pass.specs.Passes.{AreOwn};

use crate::children::all_children;
use crate::conditions::Conditions;
use crate::pass::Pass;
use crate::tour::tour;
use htn_base::{List, Memory};
use kept_front::Later;
use plan_model::Compiled;
use std::alloc::Global;
use tree_core::Tree;

/// The latest gap of each node, by its address, or `None` where there is no gap function. `actions` are the addresses of the
/// primitives in their order.
pub fn latest_gaps<C: Conditions>(
    alloc: Global,
    c: &Compiled,
    later: &[Later],
    tree: &Tree,
    actions: &[u32],
    conditions: &mut C,
) -> Result<Option<List<u32>>, Memory>
    requires soundly { IsSoundlyCompiled c.now }
    requires later { AreAllLater c.now later.now }
    ensures gaps { IfOk result (AreLatestOrNone c.now tree.now actions.now (C.may conditions.old)) }
    ensures stays { OnOk result ((k i : ℕ) → C.may conditions.new k i ↔ C.may conditions.old k i) }
{
    let children = all_children(alloc, tree)?;
    let steps = tour(alloc, c, tree, children.as_slice())?;
    let own = own_gaps(alloc, tree.size() as usize, actions)?;
    let mut pass = Pass::new(alloc, tree.size(), most_of(actions, tree.size()))?;
    for step in steps.as_slice() {
        let found = pass.take(
            alloc,
            later,
            tree,
            children.as_slice(),
            own.as_slice(),
            conditions,
            *step,
        )?;
        if !found {
            return Ok(None);
        }
    }
    Ok(Some(list_of(alloc, pass.gaps.as_slice())?))
}

/// How many primitives there are, of so many nodes.
fn most_of(actions: &[u32], size: u32) -> u32
    ensures { length actions.now ≤ size → result ≡ length actions.now }
{
    if actions.len() <= size as usize {
        actions.len() as u32
    } else {
        size
    }
}

/// The number of each node among the primitives, of so many nodes.
fn own_gaps(alloc: Global, size: usize, actions: &[u32]) -> Result<Vec<Option<usize>>, Memory>
    ensures { IfOk result (λ own. AreOwn size actions.now own.items) }
{
    let mut own = vec![in alloc; None; size]?;
    for (number, node) in actions.iter().enumerate() {
        put_own(&mut own, *node, number);
    }
    Ok(own)
}

/// Puts the number of a node, where there is such a node.
fn put_own(own: &mut Vec<Option<usize>>, node: u32, number: usize)
    ensures { own.new.items ≡ set own.old.items node (Some number) }
{
    if (node as usize) < own.len() {
        own[node as usize] = Some(number);
    }
}

/// The numbers as a list.
fn list_of(alloc: Global, numbers: &[u32]) -> Result<List<u32>, Memory>
    ensures { IfOk result (λ list. list ≡ numbers.now) }
{
    let mut list = List::with_room(alloc, numbers.len())?;
    for number in numbers {
        list.push(*number)?;
    }
    Ok(list)
}
