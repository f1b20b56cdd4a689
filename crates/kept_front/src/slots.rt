ghost use Rattle.std.specs.Prelude.{◌≡◌, ◌≤◌, length, IfOk, IfSome};
ghost use Rattle.slot_machine.specs.Machine.{with_heir};

use htn_base::Memory;
use std::alloc::Global;

/// The slots of a method's children: the heir has its task's slot, the others the new ones in their order.
#[tactic(auto, using(crate::proofs::SlotLaws::inserted))]
pub(crate) fn child_slots(
    alloc: Global,
    heir: Option<u32>,
    slot: u32,
    new: &[u32],
) -> Result<Vec<u32>, Memory>
    requires heir { IfSome heir (λ k. k ≤ length new.now) }
    ensures { IfOk result (λ slots. slots.items ≡ with_heir heir slot new.now) }
{
    let mut slots = Vec::from_slice(alloc, new)?;
    match heir {
        Some(heir) => {
            slots.insert(heir as usize, slot)?;
            Ok(slots)
        }
        None => Ok(slots),
    }
}
