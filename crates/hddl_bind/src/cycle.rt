ghost use Rattle.std.specs.Prelude.{◌≡◌, IfOk};
ghost use Rattle.hddl_bind.specs.Cycle.{IsCycle};
ghost use Rattle.hddl_bind.specs.Pairs.{pairs_bound, pairs_at};

use crate::pairs::Ordering;
use hddl_reader::RawNet;
use htn_base::limits::MOST_SUBTASKS;
use htn_base::{Memory, number};
use plan_model::net_order::{Order, OrderError};
use std::alloc::Global;

/// The offset of the first written pair that closes a cycle with the chain and the earlier pairs. In a network past the limit none
/// is looked for. The chain alone has no cycle.
pub(crate) fn cycle_of(
    alloc: Global,
    net: &RawNet,
    ordering: &Ordering,
) -> Result<Option<u32>, Memory>
    requires pairs { ordering.now.pairs ≡ pairs_bound net.now }
    requires offsets { ordering.now.offsets ≡ pairs_at net.now }
    ensures cycle { IfOk result (IsCycle net.now) }
{
    let count = net.subs.len();
    let pairs = ordering.pairs.as_slice();
    let offsets = ordering.offsets.as_slice();
    if count > MOST_SUBTASKS || offsets.is_empty() {
        return Ok(None);
    }
    number(pairs.len())?;
    match Order::new(alloc, count as u32, pairs) {
        Ok(order) => {
            drop(order);
            Ok(None)
        }
        Err(OrderError::Cycle { pair }) => {
            let chain = pairs.len() - offsets.len();
            Ok(Some(offsets[pair as usize - chain]))
        }
        Err(OrderError::Memory) => Err(Memory),
    }
}
