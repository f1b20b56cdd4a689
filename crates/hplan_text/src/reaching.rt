ghost use Rattle.std.specs.Prelude.{◌≡◌, length, IfOk, OnOk};
ghost use Rattle.std.specs.List.Sorted.{IsStrictlyIncreasing};
ghost use Rattle.hplan_text.specs.Marks.{among, has};
ghost use Rattle.hplan_text.specs.Walks.{AreOwned, IsIndex, AreOnce, HasReached, Visits};

use crate::ids::{Taken, place_of, take};
use crate::values::{HNode, HPlan};
use htn_base::Memory;
use std::alloc::Global;

// The place of a node with each id, or a place past all nodes where no node has it.
fn index_of(alloc: Global, ids: &[u64], nodes: &[HNode]) -> Result<Vec<usize>, Memory>
    requires rises { IsStrictlyIncreasing ids.now }
    ensures index { IfOk result (λ index. IsIndex ids.now nodes.now index.items) }
{
    let mut index = vec![in alloc; nodes.len(); ids.len()]?;
    for i in 0..nodes.len() {
        if let Some(place) = place_of(ids, nodes[i].line.id) {
            index[place] = i;
        }
    }
    Ok(index)
}

// Takes an id as reached. The ids that its node lists are to be taken then, where it wasn't reached before.
fn visit(
    plan: &HPlan,
    ids: &[u64],
    index: &[usize],
    id: u64,
    reached: &mut [bool],
    todo: &mut Vec<u64>,
) -> Result<(), Memory>
    requires rises { IsStrictlyIncreasing ids.now }
    requires owned { AreOwned (among ids.now) plan.now.nodes }
    requires index { IsIndex ids.now plan.now.nodes index.now }
    requires sized { length reached.old ≡ length ids.now }
    ensures visited { OnOk result (Visits plan.now (among ids.now) id
        (has ids.now reached.old) todo.old.items (has ids.now reached.new) todo.new.items) }
{
    if let Taken::New(place) = take(ids, id, reached) {
        if let Some(node) = plan.nodes.get(index[place]) {
            todo.extend_from_slice(node.ids.as_slice())?;
        }
    }
    Ok(())
}

/// Marks the ids that the root reaches, where no two nodes have one id.
pub(crate) fn reached(alloc: Global, plan: &HPlan, ids: &[u64]) -> Result<Vec<bool>, Memory>
    requires once { AreOnce plan.now.nodes }
    requires rises { IsStrictlyIncreasing ids.now }
    requires owned { AreOwned (among ids.now) plan.now.nodes }
    ensures sized { IfOk result (λ reached. length reached.items ≡ length ids.now) }
    ensures reached { IfOk result (λ reached. HasReached plan.now (among ids.now) (has ids.now reached.items)) }
{
    let index = index_of(alloc, ids, plan.nodes.as_slice())?;
    let mut reached = vec![in alloc; false; ids.len()]?;
    let mut todo = Vec::from_slice(alloc, plan.root.as_slice())?;
    while let Some(id) = todo.pop() {
        visit(plan, ids, &index, id, &mut reached, &mut todo)?;
    }
    Ok(reached)
}
