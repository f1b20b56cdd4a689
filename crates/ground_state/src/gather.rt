ghost use Rattle.std.specs.Prelude.{◌≡◌, ◌∷◌, OnOk};
ghost use Rattle.problem_index.specs.Kinds.{IsWorld};
ghost use Rattle.ground_state.specs.Frames.{frame};
ghost use Rattle.ground_state.specs.Room.{EffectFits, AllEffectsFit, EffectFitsWithin};
ghost use Rattle.ground_state.specs.Clauses.{IsDomainIn, Gets, GetsEach, GetsWithin};

use crate::atom_list::AtomLists;
use crate::env::Env;
use crate::state::State;
use crate::truth::is_true;
use htn_base::Memory;
use plan_model::{Effect, Param, Parts};
use problem_index::{Domain, World};
use std::alloc::Global;

/// Puts the atoms that the effect adds, and those that it deletes, at the ends of the lists. `s`: the state before it.
#[cycle(gather)]
#[inline(always)]
pub(crate) fn gather(
    alloc: Global,
    eff: &Effect,
    env: &mut Env,
    s: &State,
    world: &World<'_>,
    into: &mut AtomLists,
) -> Result<(), Memory>
    requires world { IsWorld world.now }
    requires room { EffectFits (frame env.old) eff.now }
    ensures gathered { OnOk result (Gets world.now s.now eff.now env.old into.old into.new) }
    ensures kept { frame env.new ≡ frame env.old }
{
    match eff {
        Effect::Add(atom) => into.adds.put(alloc, env, atom),
        Effect::Delete(atom) => into.deletes.put(alloc, env, atom),
        Effect::And(parts) => gather_each(alloc, parts.as_slice(), env, s, world, into),
        Effect::Forall(params, body) => {
            gather_within(alloc, params.as_slice(), body.get(), env, s, world, into)
        }
        Effect::When(condition, body) => {
            if is_true(condition, env, s, world) {
                return gather(alloc, body.get(), env, s, world, into);
            }
            Ok(())
        }
    }
}

/// The same, of each of the effects.
#[cycle(gather)]
fn gather_each(
    alloc: Global,
    parts: &[Effect],
    env: &mut Env,
    s: &State,
    world: &World<'_>,
    into: &mut AtomLists,
) -> Result<(), Memory>
    requires world { IsWorld world.now }
    requires room { AllEffectsFit (frame env.old) parts.now }
    ensures gathered { OnOk result (GetsEach world.now s.now parts.now env.old into.old into.new) }
    ensures kept { frame env.new ≡ frame env.old }
{
    for part in parts {
        gather(alloc, part, env, s, world, into)?;
    }
    Ok(())
}

/// The same, of the effect with all objects of these types.
#[cycle(gather)]
fn gather_within(
    alloc: Global,
    params: &[Param],
    body: &Effect,
    env: &mut Env,
    s: &State,
    world: &World<'_>,
    into: &mut AtomLists,
) -> Result<(), Memory>
    requires world { IsWorld world.now }
    requires room { EffectFitsWithin (frame env.old) params.now body.now }
    ensures gathered { OnOk result
        (GetsWithin world.now s.now params.now body.now env.old into.old into.new) }
    ensures kept { frame env.new ≡ frame env.old }
{
    let Some((param, rest)) = params.split_first() else {
        return gather(alloc, body, env, s, world, into);
    };
    match world.domain(param.ty) {
        Some(domain) => gather_of(alloc, &domain, param, rest, body, env, s, world, into),
        None => gather_in_parts(alloc, param, rest, body, env, s, world, into),
    }
}

/// The same, where nothing is known of the first type beforehand. It keeps the room for the marks of its parts out of the
/// way of the rest.
#[cycle(gather)]
#[cold]
#[inline(never)]
fn gather_in_parts(
    alloc: Global,
    param: &Param,
    rest: &[Param],
    body: &Effect,
    env: &mut Env,
    s: &State,
    world: &World<'_>,
    into: &mut AtomLists,
) -> Result<(), Memory>
    requires world { IsWorld world.now }
    requires room { EffectFitsWithin (frame env.old) (param.now ∷ rest.now) body.now }
    ensures gathered { OnOk result
        (GetsWithin world.now s.now (param.now ∷ rest.now) body.now env.old into.old into.new) }
    ensures kept { frame env.new ≡ frame env.old }
{
    let parts = Parts::new(world.types, param.ty);
    let domain = Domain::among(world.objects, &parts);
    gather_of(alloc, &domain, param, rest, body, env, s, world, into)
}

/// The same, where the domain has the objects of the first type.
#[cycle(gather)]
#[inline(always)]
fn gather_of(
    alloc: Global,
    domain: &Domain<'_>,
    param: &Param,
    rest: &[Param],
    body: &Effect,
    env: &mut Env,
    s: &State,
    world: &World<'_>,
    into: &mut AtomLists,
) -> Result<(), Memory>
    requires world { IsWorld world.now }
    requires domain { IsDomainIn world.now param.now.ty domain.now }
    requires room { EffectFitsWithin (frame env.old) (param.now ∷ rest.now) body.now }
    ensures gathered { OnOk result
        (GetsWithin world.now s.now (param.now ∷ rest.now) body.now env.old into.old into.new) }
    ensures kept { frame env.new ≡ frame env.old }
{
    for place in 0..domain.len() {
        if let Some(object) = domain.at(place) {
            env.push(object);
            let gathered = gather_within(alloc, rest, body, env, s, world, into);
            env.pop();
            gathered?;
        }
    }
    Ok(())
}
