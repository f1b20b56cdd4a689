ghost use Rattle.std.specs.Prelude.{◌≡◌, ◌↔◌, IsTrue};
ghost use Rattle.ground_state.specs.Frames.{frame};
ghost use Rattle.step_reader.specs.Readings.{HasRoomIn};
ghost use Rattle.tree_decoder.specs.Acts as spec;

use ground_state::{Env, State, is_true};
use plan_model::Compiled;
use problem_index::{PrintedName, World};

/// Whether the state allows the act of this name: the condition of an action, the precondition of a method at its check, and that
/// of a method that is tested where it is applied.
pub(crate) fn is_allowed(
    c: &Compiled,
    world: &World<'_>,
    state: &State,
    name: PrintedName,
    env: &mut Env,
) -> bool
    requires world { spec.IsWorldOf c.now world.now }
    requires room { HasRoomIn c.now (frame env.old) }
    requires some { spec.IsNamedWith c.now name (frame env.old).objects }
    ensures allowed { IsTrue result ↔ spec.AllowsWith c.now state.now name (frame env.old).objects }
    ensures kept { frame env.new ≡ frame env.old }
{
    match name {
        PrintedName::Action(action) => match c.hddl.actions.get(action as usize) {
            Some(action) => is_true(&action.pre, env, state, world),
            None => false,
        },
        PrintedName::Check(method) => match c.methods.get(method as usize) {
            Some(plan) => is_true(&plan.schema.pre, env, state, world),
            None => false,
        },
        PrintedName::Method(method) => match c.methods.get(method as usize) {
            Some(plan) => !plan.tested || is_true(&plan.schema.pre, env, state, world),
            None => false,
        },
    }
}
