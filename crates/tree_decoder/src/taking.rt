ghost use Rattle.std.specs.Prelude.{◌≡◌, OnOk};
ghost use Rattle.plan_texts.specs.SoundlyCompiled.{IsSoundlyCompiled};
ghost use Rattle.ground_state.specs.Frames.{frame};
ghost use Rattle.kept_front.specs.Later.{AreAllLater};
ghost use Rattle.step_reader.specs.Readings.{HasRoomIn};
ghost use Rattle.tree_decoder.specs.Acts.{IsWorldOf, IsNamedWith, HasWork, AreNewNoted, act_in};
ghost use Rattle.tree_decoder.specs.Taking as spec;

use crate::testing::Scratch;
use ground_state::{Env, State};
use htn_base::Memory;
use htn_base::limits::MOST_STEPS;
use kept_front::{Front, Later};
use plan_model::Compiled;
use problem_index::{PrintedName, World};
use std::alloc::Global;

/// The front grows by the act of this name at the slot. After `Memory` it is of no use; more than 1,000,000 growths want memory.
pub(crate) fn grow_by(
    alloc: Global,
    c: &Compiled,
    later: &[Later],
    front: &mut Front,
    name: PrintedName,
    slot: u32,
    scratch: &Scratch,
) -> Result<(), Memory>
    requires soundly { IsSoundlyCompiled c.now }
    requires later { AreAllLater c.now later.now }
    requires named { IsNamedWith c.now name (frame scratch.now.env).objects }
    requires new { AreNewNoted c.now name slot scratch.now }
    requires work { HasWork c.now name scratch.now }
    requires can { spec.CanGrowSome c.now (act_in c.now name slot scratch.now) front.old }
    ensures grown { OnOk result (spec.IsGrownBy c.now (act_in c.now name slot scratch.now) front.old front.new) }
{
    if front.growths().len() >= MOST_STEPS as usize {
        return Err(Memory);
    }
    let label = scratch.label(alloc, c, name)?;
    front.take(alloc, c, later, slot, scratch.new_slots.as_slice(), label)
}

/// The state goes to the one behind the act of this name: an action alone changes it. After `Memory` it is as it was.
pub(crate) fn apply(
    alloc: Global,
    c: &Compiled,
    world: &World<'_>,
    state: &mut State,
    name: PrintedName,
    env: &mut Env,
) -> Result<(), Memory>
    requires world { IsWorldOf c.now world.now }
    requires room { HasRoomIn c.now (frame env.old) }
    requires named { IsNamedWith c.now name (frame env.old).objects }
    ensures after { OnOk result (spec.IsAfter c.now name (frame env.old).objects state.old state.new) }
    ensures kept { frame env.new ≡ frame env.old }
{
    let PrintedName::Action(action) = name else {
        return Ok(());
    };
    match c.hddl.actions.get(action as usize) {
        Some(action) => state.apply_in(alloc, world, &action.eff, env),
        None => Ok(()),
    }
}
