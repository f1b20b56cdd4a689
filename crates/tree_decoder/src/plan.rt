ghost use Rattle.std.specs.Prelude.{◌≡◌, ◌≤◌, length, IfOk, IfErr};
ghost use Rattle.htn_base.specs.Limits.{most_slots, most_steps};
ghost use Rattle.plan_texts.specs.SoundlyCompiled.{IsSoundlyCompiled};
ghost use Rattle.tree_decoder.specs.Decoded.{IsDecoded, IsRefused};

use crate::decoded::{DecodeError, Decoded};
use crate::decoder::Decoder;
use plan_model::{Compiled, GroundAction};
use std::alloc::Global;

/// The tree of the solution that the list spells with so many slots, with its schedule and slots; else the first step that fails,
/// counted from 1, and its first cause.
pub fn decode(
    alloc: Global,
    c: &Compiled,
    slots: u32,
    plan: &[GroundAction],
) -> Result<Decoded, DecodeError>
    requires soundly { IsSoundlyCompiled c.now }
    requires some { 1 ≤ slots }
    requires few_slots { slots ≤ most_slots }
    requires few { length plan.now ≤ most_steps }
    ensures decoded { IfOk result (IsDecoded c.now slots plan.now) }
    ensures refused { IfErr result (IsRefused c.now slots plan.now) }
{
    let mut decoder = Decoder::new(alloc, c, slots)?;
    let mut words = Vec::new(alloc);
    for (i, step) in plan.iter().enumerate() {
        if let Some(why) = decoder.take_action(alloc, step, &mut words)? {
            let step = i as u32 + 1;
            return Err(DecodeError::NotAPlan { step, why });
        }
    }
    decoder.finish(alloc)
}
