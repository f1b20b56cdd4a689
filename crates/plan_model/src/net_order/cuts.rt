ghost use Rattle.std.specs.Prelude.{◌≡◌, ◌<◌, All, length, IfOk};
ghost use Rattle.plan_model.specs.net_order.Marks.{IsSquare, AreMarkedCuts};

use crate::net_order::child_set::ChildSet;
use htn_base::Memory;
use std::alloc::Global;

/// The places of the line at which it is cut: each child before the place precedes each from it on.
pub fn cuts_of(alloc: Global, before: &[ChildSet], line: &[u32]) -> Result<ChildSet, Memory>
    requires square { IsSquare (length before.now) before.now }
    requires children { All (λ i. i < length before.now) line.now }
    ensures room { IfOk result (λ set. length set ≡ length line.now) }
    ensures cuts { IfOk result (AreMarkedCuts before.now line.now) }
{
    let mut cuts = ChildSet::new(alloc, line.len())?;
    let mut reach = line.len();
    for k in (0..line.len()).rev() {
        let set = &before[line[k] as usize];
        let mut covered = 0;
        while covered < reach && set.contains(line[covered] as usize) {
            covered += 1;
        }
        reach = covered;
        if k <= reach {
            cuts.insert(k);
        }
    }
    Ok(cuts)
}
