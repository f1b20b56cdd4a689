ghost use Rattle.std.specs.Prelude.{length};
ghost use Rattle.plan_model.specs.task_networks.Order.{IsLine};
ghost use Rattle.plan_model.specs.net_order.Marks.{Marked, IsSquare, IsMarkedLastOrNone};

use crate::net_order::child_set::ChildSet;

/// The child that all others precede: no other than the last of the line. `None` exactly where there is none.
pub fn last_of(before: &[ChildSet], line: &[u32]) -> Option<u32>
    requires square { IsSquare (length before.now) before.now }
    requires line { IsLine (Marked before.now) (length before.now) line.now }
    ensures last { IsMarkedLastOrNone before.now result }
{
    let child = line.last().copied()?;
    let set = &before[child as usize];
    for j in 0..set.len() {
        if j != child as usize && !set.contains(j) {
            return None;
        }
    }
    Some(child)
}
