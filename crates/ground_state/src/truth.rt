ghost use Rattle.std.specs.Prelude.{◌≡◌, ◌<◌, ◌^◌, ◌∷◌, ◌↔◌, IsTrue, IfSome, length};
ghost use Rattle.plan_model.specs.Parts.{AreListed};
ghost use Rattle.problem_index.specs.Domains.{IsBelow};
ghost use Rattle.problem_index.specs.Kinds.{IsWorld};
ghost use Rattle.ground_state.specs.Frames.{frame};
ghost use Rattle.ground_state.specs.Room.{Fits, AllFit, FitsWithin};
ghost use Rattle.ground_state.specs.Search.{IsLiteralFound};
ghost use Rattle.ground_state.specs.Clauses.{IsTrueBy, IsTrueInWorld, IsDomainIn, IsAmong, Finds};

use crate::env::Env;
use crate::state::State;
use htn_base::List;
use plan_model::{Formula, Object, Param, Parts, Types};
use problem_index::{Domain, World};

/// Whether the formula is true in the state, where the environment has the objects of the variables in force. It takes
/// no memory and leaves the environment as it was. A conjunction stops at its first false part. A quantifier goes past
/// all objects; in a `Run` it goes over those of its type.
pub fn holds<'a>(
    f: &Formula,
    env: &mut Env,
    s: &State,
    types: &'a Types,
    objects: &'a List<Object>,
) -> bool
    requires listed { AreListed types.now }
    requires few { length objects.now < 2 ^ 32 }
    requires room { Fits (frame env.old) f.now }
    ensures truth { IsTrue result ↔ IsTrueBy types.now objects.now s.now f.now env.old }
    ensures kept { frame env.new ≡ frame env.old }
{
    let world = World {
        types,
        objects,
        kinds: None,
    };
    is_true(f, env, s, &world)
}

/// The same, in a world, where a quantifier goes over the objects of its type. Of a literal, as most parts of conditions are, it is told without a further call.
#[cycle(holds_in)]
#[inline(always)]
pub fn is_true(f: &Formula, env: &mut Env, s: &State, world: &World<'_>) -> bool
    requires world { IsWorld world.now }
    requires room { Fits (frame env.old) f.now }
    ensures truth { IsTrue result ↔ IsTrueInWorld world.now s.now f.now env.old }
    ensures kept { frame env.new ≡ frame env.old }
{
    if let Formula::Holds(atom) = f {
        return s.has_atom(env, atom);
    }
    if let Formula::Not(part) = f {
        if let Formula::Holds(atom) = part.get() {
            return !s.has_atom(env, atom);
        }
    }
    holds_in(f, env, s, world)
}

/// The same, of any formula.
#[cycle(holds_in)]
fn holds_in(f: &Formula, env: &mut Env, s: &State, world: &World<'_>) -> bool
    requires world { IsWorld world.now }
    requires room { Fits (frame env.old) f.now }
    ensures truth { IsTrue result ↔ IsTrueInWorld world.now s.now f.now env.old }
    ensures kept { frame env.new ≡ frame env.old }
{
    match f {
        Formula::Holds(atom) => s.has_atom(env, atom),
        Formula::Equal(left, right) => env.value(*left) == env.value(*right),
        Formula::Not(part) => !holds_in(part.get(), env, s, world),
        Formula::And(parts) => !is_among(false, parts.as_slice(), env, s, world),
        Formula::Or(parts) => is_among(true, parts.as_slice(), env, s, world),
        Formula::Imply(premise, conclusion) => {
            if holds_in(premise.get(), env, s, world) {
                return holds_in(conclusion.get(), env, s, world);
            }
            true
        }
        Formula::Forall(params, body) => {
            !is_found(false, params.as_slice(), body.get(), env, s, world)
        }
        Formula::Exists(params, body) => {
            is_found(true, params.as_slice(), body.get(), env, s, world)
        }
    }
}

/// Whether one of the formulas is true, or one is false, as wanted.
#[cycle(holds_in)]
fn is_among(wanted: bool, parts: &[Formula], env: &mut Env, s: &State, world: &World<'_>) -> bool
    requires world { IsWorld world.now }
    requires room { AllFit (frame env.old) parts.now }
    ensures answer { IsAmong world.now s.now wanted result parts.now env.old }
    ensures kept { frame env.new ≡ frame env.old }
{
    for part in parts {
        if is_true(part, env, s, world) == wanted {
            return true;
        }
    }
    false
}

/// Whether for some objects of these types the formula is true, or false, as wanted.
#[cycle(holds_in)]
fn is_found(
    wanted: bool,
    params: &[Param],
    body: &Formula,
    env: &mut Env,
    s: &State,
    world: &World<'_>,
) -> bool
    requires world { IsWorld world.now }
    requires room { FitsWithin (frame env.old) params.now body.now }
    ensures answer { Finds world.now s.now wanted result params.now body.now env.old }
    ensures kept { frame env.new ≡ frame env.old }
{
    let Some((param, rest)) = params.split_first() else {
        return is_true(body, env, s, world) == wanted;
    };
    match world.domain(param.ty) {
        Some(domain) => is_found_of(wanted, &domain, param, rest, body, env, s, world),
        None => is_found_in_parts(wanted, param, rest, body, env, s, world),
    }
}

/// The same, where nothing is known of the first type beforehand. It keeps the room for the marks of its parts out of the
/// way of the rest.
#[cycle(holds_in)]
#[cold]
#[inline(never)]
fn is_found_in_parts(
    wanted: bool,
    param: &Param,
    rest: &[Param],
    body: &Formula,
    env: &mut Env,
    s: &State,
    world: &World<'_>,
) -> bool
    requires world { IsWorld world.now }
    requires room { FitsWithin (frame env.old) (param.now ∷ rest.now) body.now }
    ensures answer { Finds world.now s.now wanted result (param.now ∷ rest.now) body.now env.old }
    ensures kept { frame env.new ≡ frame env.old }
{
    let parts = Parts::new(world.types, param.ty);
    let domain = Domain::among(world.objects, &parts);
    is_found_of(wanted, &domain, param, rest, body, env, s, world)
}

/// The same, where the domain has the objects of the first type.
#[cycle(holds_in)]
#[inline(always)]
fn is_found_of(
    wanted: bool,
    domain: &Domain<'_>,
    param: &Param,
    rest: &[Param],
    body: &Formula,
    env: &mut Env,
    s: &State,
    world: &World<'_>,
) -> bool
    requires world { IsWorld world.now }
    requires domain { IsDomainIn world.now param.now.ty domain.now }
    requires room { FitsWithin (frame env.old) (param.now ∷ rest.now) body.now }
    ensures answer { Finds world.now s.now wanted result (param.now ∷ rest.now) body.now env.old }
    ensures kept { frame env.new ≡ frame env.old }
{
    if rest.is_empty() {
        let count = world.objects.len() as u32;
        if let Some(found) = is_literal_found(wanted, domain, count, body, env, s) {
            return found;
        }
    }
    for place in 0..domain.len() {
        if let Some(object) = domain.at(place) {
            env.push(object);
            let found = is_found(wanted, rest, body, env, s, world);
            env.pop();
            if found {
                return true;
            }
        }
    }
    false
}

/// Whether for some object of the domain the formula is true, or false, as wanted. It is told only of
/// a literal, where that takes no look-up of whole atoms. `count`: the number of all objects.
#[inline(always)]
fn is_literal_found(
    wanted: bool,
    domain: &Domain<'_>,
    count: u32,
    body: &Formula,
    env: &Env,
    s: &State,
) -> Option<bool>
    requires below { IsBelow count domain.now }
    ensures { IfSome result (IsLiteralFound domain.now s.now wanted body.now (frame env.now).objects) }
{
    match body {
        Formula::Holds(atom) => s.finds(wanted, domain, count, env, atom),
        Formula::Not(part) => match part.get() {
            Formula::Holds(atom) => s.finds(!wanted, domain, count, env, atom),
            _ => None,
        },
        _ => None,
    }
}
