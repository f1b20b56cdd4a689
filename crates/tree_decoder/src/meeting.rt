ghost use Rattle.std.specs.Prelude.{◌↔◌, IsTrue};
ghost use Rattle.plan_texts.specs.SoundlyCompiled.{IsSoundlyCompiled};
ghost use Rattle.problem_index.specs.Kinds.{IsWorld};
ghost use Rattle.ground_state.specs.Frames.{frame};
ghost use Rattle.tree_decoder.specs.Acts as spec;

use ground_state::Env;
use plan_model::{Compiled, Constraint, Guard};
use problem_index::{PrintedName, World};

/// Whether what the act of this name asks is met: the constraints of a method are true, and the arguments of its children are of
/// their declared types.
pub(crate) fn is_met(c: &Compiled, world: &World<'_>, name: PrintedName, env: &Env) -> bool
    requires soundly { IsSoundlyCompiled c.now }
    requires world { spec.IsWorldOf c.now world.now }
    requires some { spec.IsNamedWith c.now name (frame env.now).objects }
    ensures met { IsTrue result ↔ spec.IsMetWith c.now name (frame env.now).objects }
{
    let PrintedName::Method(method) = name else {
        return true;
    };
    match c.methods.get(method as usize) {
        Some(plan) => {
            are_true(plan.schema.constraints.as_slice(), env)
                && are_kept(plan.guards.as_slice(), world, env)
        }
        None => false,
    }
}

/// Whether each of the constraints is true.
fn are_true(constraints: &[Constraint], env: &Env) -> bool
    ensures { IsTrue result ↔ spec.AreMet (frame env.now).objects constraints.now }
{
    constraints.iter().all(|one| one.equal == (env.value(one.left) == env.value(one.right)))
}

/// Whether each of the terms stands for an object of its type.
fn are_kept(guards: &[Guard], world: &World<'_>, env: &Env) -> bool
    requires world { IsWorld world.now }
    ensures { IsTrue result ↔ spec.AreKept world.now (frame env.now).objects guards.now }
{
    for guard in guards {
        if !world.has(env.value(guard.term), guard.ty) {
            return false;
        }
    }
    true
}
