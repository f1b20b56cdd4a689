ghost use Rattle.std.specs.Prelude.{◌≡◌, slice_index, IfOk};
ghost use Rattle.slot_encoding.specs.EncodedActions.{slot_vars};
ghost use Rattle.slot_encoder.specs.Parts.{AreVariables};

use htn_base::{List, Memory, number};
use plan_model::MethodPlan;
use slot_encoding::slot_declarations::plus;
use std::alloc::Global;

/// How the variables of a method's action stand: the task's slot, so many new slots, then the parameters, which `front`
/// variables stand before; `depth` of them in all. `slots` has the slot of each child.
pub(crate) struct Variables {
    pub spare: u32,
    pub front: u32,
    pub depth: u32,
    pub slots: List<u32>,
}

impl Drop for Variables {
    fn drop(self) {
        let Variables {
            spare: _,
            front: _,
            depth: _,
            slots: _,
        } = self;
    }
}

pub(crate) fn variables_of(alloc: Global, plan: &MethodPlan) -> Result<Variables, Memory>
    ensures { IfOk result (AreVariables plan.now) }
{
    let count = number(plan.schema.children.len())?;
    let spare = count.saturating_sub(1);
    let front = plus(spare, 1)?;
    let depth = plus(front, number(plan.schema.params.len())?)?;
    let slots = slots_of(alloc, plan.heir, count)?;
    Ok(Variables {
        spare,
        front,
        depth,
        slots,
    })
}

/// The slots of so many children: the heir has the task's, the others the new ones in number order.
fn slots_of(alloc: Global, heir: Option<u32>, count: u32) -> Result<List<u32>, Memory>
    ensures { IfOk result (λ slots. slots ≡ slot_vars heir 0 1 count) }
{
    let mut slots = List::new(alloc);
    let mut new: u32 = 1;
    for i in 0..count {
        if heir == Some(i) {
            slots.push(0)?;
        } else {
            slots.push(new)?;
            new = plus(new, 1)?;
        }
    }
    Ok(slots)
}

/// The slot of the child at this place; 0 past the children.
pub(crate) fn slot_of(slots: &[u32], place: u32) -> u32
    ensures { result ≡ slice_index slots.now place }
{
    match slots.get(place as usize) {
        Some(slot) => *slot,
        None => 0,
    }
}
