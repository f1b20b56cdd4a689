ghost use Rattle.std.specs.Prelude.{◌<◌, ◌^◌, length, IfOk};
ghost use Rattle.plan_model.specs.net_order.Marks.{Marked, IsSquare};
ghost use Rattle.plan_model.specs.net_order.Line.{IsGreedy};

use crate::net_order::child_set::ChildSet;
use crate::net_order::front::Front;
use htn_base::{List, Memory};
use std::alloc::Global;

/// The children, each time the least that isn't listed yet and whose predecessors are all listed, until there is none.
pub fn line_of(alloc: Global, before: &[ChildSet]) -> Result<List<u32>, Memory>
    requires square { IsSquare (length before.now) before.now }
    requires small { length before.now < 2 ^ 32 }
    ensures greedy { IfOk result (IsGreedy (Marked before.now) (length before.now)) }
{
    let mut front = Front::new(alloc, before)?;
    let mut line = List::new(alloc);
    for _ in 0..before.len() {
        match front.next() {
            Some(child) => {
                line.push(child as u32)?;
                front.list(alloc, before, child)?;
            }
            None => return Ok(line),
        }
    }
    Ok(line)
}
