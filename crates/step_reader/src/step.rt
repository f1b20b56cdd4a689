ghost use Rattle.std.specs.Prelude.{IfOk};
ghost use Rattle.ground_state.specs.Frames.{frame};
ghost use Rattle.ground_state.specs.Runs.{words_step, IsAsRoomy};
ghost use Rattle.step_reader.specs.Readings as spec;

use crate::answer::Read;
use crate::due::{Parts, new_slots, params_of};
use crate::slots::{fill_slots, slot_within};
use ground_state::{Env, fill};
use htn_base::Memory;
use plan_model::Compiled;
use problem_index::{PrintedIndex, World};

/// Reads the step of these words, where there are so many slots. The new slots are written to `new`, in place of what was written
/// there, and the objects are put in force in the environment. Where the step is not read, both have whatever.
pub fn read(
    printed: &PrintedIndex,
    world: &World<'_>,
    c: &Compiled,
    slots: u32,
    name: &[u8],
    args: &[&[u8]],
    new: &mut Vec<u32>,
    env: &mut Env,
) -> Result<Read, Memory>
    requires readable { spec.IsReadable c.now }
    requires own { spec.AreOwn c.now printed.now world.now }
    requires room { spec.HasRoomIn c.now (frame env.old) }
    ensures read { IfOk result (λ answer.
        spec.IsReading c.now slots (words_step name.now args.now) answer new.new.items (frame env.new).objects) }
    ensures new { IfOk result (λ answer. spec.HasNew c.now answer new.new.items (frame env.new).objects) }
    ensures room { IsAsRoomy (frame env.old) (frame env.new) }
{
    let Some(found) = printed.find(c, name) else {
        return Ok(Read::Unnamed);
    };
    let Some(parts) = Parts::of(args, new_slots(c, found)) else {
        return Ok(Read::Unread);
    };
    let Some(slot) = slot_within(slots, parts.slot) else {
        return Ok(Read::Unread);
    };
    if !fill_slots(slots, parts.new, new)? {
        return Ok(Read::Unread);
    }
    if !fill(
        printed.index(),
        world,
        params_of(c, found),
        parts.objects,
        env,
    ) {
        return Ok(Read::Unread);
    }
    Ok(Read::Act { name: found, slot })
}
