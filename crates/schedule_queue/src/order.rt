ghost use Rattle.std.specs.Prelude.{ℕ, List as Items, IfOk};
ghost use Rattle.plan_model.specs.task_networks.Tree.{Tree as DecompositionTree, Address};
ghost use Rattle.plan_model.specs.plan_meaning.Network.{network};
ghost use Rattle.plan_texts.specs.SoundlyCompiled.{IsSoundlyCompiled};
ghost use Rattle.kept_front.specs.Later.{AreAllLater};
ghost use Rattle.schedule_queue.specs.Orders as spec;

use crate::children::Children;
use crate::given::Given;
use crate::queue::Queue;
use htn_base::{List, Memory};
use kept_front::Later;
use plan_model::Compiled;
use std::alloc::Global;
use tree_core::Tree;

/// The order of the schedule of these gaps: gap by gap, in each the first ready node in preorder each time, then the primitive of
/// the gap.
///
/// `actions`: the addresses of the primitives in the plan's order. `gaps`: the gap of each node, by its address.
pub fn scheduled_order(
    alloc: Global,
    c: &Compiled,
    later: &[Later],
    tree: &Tree,
    actions: &[u32],
    gaps: &[u32],
) -> Result<List<u32>, Memory>
    requires soundly { IsSoundlyCompiled c.now }
    requires later { AreAllLater c.now later.now }
    ensures order { IfOk result (λ order. (T : DecompositionTree (network c.now)) (plan : Items Address) (gap : Address → ℕ)
        → spec.IsSetting c.now tree.now actions.now gaps.now T plan gap → spec.IsOrderOf c.now T plan gap order) }
{
    let children = Children::of(alloc, tree)?;
    let given = Given {
        c,
        later,
        tree,
        actions,
        gaps,
        children: &children,
    };
    let mut queue = Queue::new(alloc, &given)?;
    let mut order = List::new(alloc);
    for _step in 0..tree.size() {
        let Some(next) = queue.next(actions) else {
            return Ok(order);
        };
        order.push(next)?;
        queue.take(alloc, &given, next)?;
    }
    Ok(order)
}
