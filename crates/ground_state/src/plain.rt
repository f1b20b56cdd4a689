ghost use Rattle.std.specs.Bool.{OnTrue};
ghost use Rattle.ground_state.specs.Frames.{frame};
ghost use Rattle.ground_state.specs.Passes.{IsPlain, ArePlain};

use crate::env::Env;
use plan_model::Effect;

/// Whether the effect is without conditions, and the environment has room for the arguments of each of its atoms.
#[cycle(is_plain)]
#[inline(always)]
pub(crate) fn is_plain(eff: &Effect, env: &Env) -> bool
    ensures { OnTrue result (IsPlain (frame env.now) eff.now) }
{
    match eff {
        Effect::Add(atom) => env.has_room(atom.args.as_slice()),
        Effect::Delete(atom) => env.has_room(atom.args.as_slice()),
        Effect::And(parts) => are_plain(parts.as_slice(), env),
        Effect::Forall(_, body) => is_plain(body.get(), env),
        Effect::When(_, _) => false,
    }
}

/// The same, of each of the effects.
#[cycle(is_plain)]
fn are_plain(parts: &[Effect], env: &Env) -> bool
    ensures { OnTrue result (ArePlain (frame env.now) parts.now) }
{
    for part in parts {
        if !is_plain(part, env) {
            return false;
        }
    }
    true
}
