ghost use Rattle.std.specs.Prelude.{◌≤◌, length};
ghost use Rattle.plan_model.specs.declared.values.Pddl.{Pddl as problem};
ghost use Rattle.problem_index.specs.Kinds.{IsWorld};
ghost use Rattle.problem_index.specs.Index.{AreOf};
ghost use Rattle.ground_state.specs.Frames.{frame};
ghost use Rattle.ground_state.specs.Runs as spec;

use crate::env::Env;
use plan_model::Param;
use problem_index::{Index, World};

/// Puts the objects that have these words in force, where they are as many as the parameters and each is in its
/// parameter's type. Where they are not, the answer is no, and the environment has whatever objects.
pub fn fill(
    index: &Index,
    world: &World<'_>,
    params: &[Param],
    words: &[&[u8]],
    env: &mut Env,
) -> bool
    requires world { IsWorld world.now }
    requires room { length params.now ≤ (frame env.old).room }
    ensures filled { (p : problem) → AreOf p index.now world.now
        → spec.IsFilled p params.now (spec.texts words.now) result (frame env.new) }
    ensures room { spec.IsAsRoomy (frame env.old) (frame env.new) }
{
    env.clear();
    if params.len() != words.len() {
        return false;
    }
    for (i, param) in params.iter().enumerate() {
        match index.object(world, words[i], param.ty) {
            Some(object) => env.push(object),
            None => return false,
        }
    }
    true
}
