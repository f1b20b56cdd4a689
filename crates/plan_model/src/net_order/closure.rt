ghost use Rattle.std.specs.Prelude.{◌≡◌, ◌<◌, All, length, IfOk, OnOk};
ghost use Rattle.plan_model.specs.task_networks.Order.{IsLine};
ghost use Rattle.plan_model.specs.net_order.Marks.{Marked, IsSquare, IsClosedOn, IsGathered};
ghost use Rattle.plan_model.specs.net_order.Line.{IsClosed};
ghost use Rattle.plan_model.specs.net_order.Outside.{IsLastOutsideOrNone};

use crate::net_order::child_set::ChildSet;
use htn_base::Memory;
use std::alloc::Global;

/// Puts into each set those that precede its members, child by child along the line.
pub fn close(alloc: Global, before: &mut [ChildSet], line: &[u32]) -> Result<(), Memory>
    requires square { IsSquare (length before.old) before.old }
    requires line { IsLine (Marked before.old) (length before.old) line.now }
    ensures closed { OnOk result (IsClosed before.old before.new) }
{
    for q in 0..line.len() {
        let child = line[q] as usize;
        let set = gather(alloc, before, &line[..q], child)?;
        before[child] = set;
    }
    Ok(())
}

/// The direct predecessors of the child among the earlier ones, and those that precede them. One that is in the set
/// already, since it precedes a later one, adds nothing.
fn gather(
    alloc: Global,
    before: &[ChildSet],
    earlier: &[u32],
    child: usize,
) -> Result<ChildSet, Memory>
    requires square { IsSquare (length before.now) before.now }
    requires within { child < length before.now }
    requires earlier { All (λ i. i < length before.now) earlier.now }
    requires closed { IsClosedOn before.now earlier.now }
    ensures room { IfOk result (λ set. length set ≡ length before.now) }
    ensures gathered { IfOk result (IsGathered before.now earlier.now child) }
{
    let mut set = ChildSet::new(alloc, before.len())?;
    let mut end = earlier.len();
    while let Some(p) = last_outside(&before[child], &set, &earlier[..end]) {
        let other = earlier[p] as usize;
        set.insert_all(&before[other]);
        set.insert(other);
        end = p;
    }
    Ok(set)
}

/// The last place whose child is in the set of direct predecessors and not in the other one. `None` where there is
/// none; where no direct predecessor is outside, no place is looked at.
fn last_outside(direct: &ChildSet, set: &ChildSet, children: &[u32]) -> Option<usize>
    requires room { length set.now ≡ length direct.now }
    requires children { All (λ i. i < length direct.now) children.now }
    ensures last { IsLastOutsideOrNone direct.now set.now children.now result }
{
    direct.first_outside(set, 0)?;
    for p in (0..children.len()).rev() {
        let child = children[p] as usize;
        if direct.contains(child) && !set.contains(child) {
            return Some(p);
        }
    }
    None
}
