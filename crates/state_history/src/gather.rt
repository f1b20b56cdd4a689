ghost use Rattle.std.specs.Prelude.{◌≡◌, ◌∷◌, [], OnOk};
ghost use Rattle.problem_index.specs.Kinds.{IsWorld};
ghost use Rattle.ground_state.specs.Clauses.{IsDomainIn};
ghost use Rattle.state_history.specs.Gathered.{Gets, GetsEach, GetsWithin};

use crate::desk::Desk;
use crate::flips::Flips;
use crate::truth::holds_in;
use htn_base::{List, Memory};
use plan_model::{Effect, GroundAtom, Param, Parts};
use problem_index::{Domain, World};
use std::alloc::Global;

/// The atoms that an effect adds, and those that it deletes.
pub struct Touched {
    pub(crate) adds: List<GroundAtom>,
    pub(crate) deletes: List<GroundAtom>,
}

impl Drop for Touched {
    fn drop(self) {
        let Touched {
            adds: _,
            deletes: _,
        } = self;
    }
}

impl Touched {
    /// No atoms. It takes no memory yet.
    pub(crate) fn new(alloc: Global) -> Touched
        ensures adds { result.adds ≡ [] }
        ensures deletes { result.deletes ≡ [] }
    {
        Touched {
            adds: List::new(alloc),
            deletes: List::new(alloc),
        }
    }
}

/// Puts the atoms that the effect adds, and those that it deletes, at the ends of the lists, with the objects in force. Each
/// condition is tested in the last gap.
#[cycle(gather)]
pub(crate) fn gather(
    alloc: Global,
    eff: &Effect,
    desk: &mut Desk,
    flips: &Flips,
    world: &World<'_>,
    into: &mut Touched,
) -> Result<(), Memory>
    requires world { IsWorld world.now }
    ensures gathered { OnOk result (Gets world.now flips.now desk.old.values.items into.old into.new eff.now) }
    ensures kept { OnOk result (desk.new.values.items ≡ desk.old.values.items) }
{
    match eff {
        Effect::Add(atom) => into.adds.put(desk.ground(alloc, atom)),
        Effect::Delete(atom) => into.deletes.put(desk.ground(alloc, atom)),
        Effect::And(parts) => gather_each(alloc, parts.as_slice(), desk, flips, world, into),
        Effect::Forall(params, body) => {
            gather_within(
                alloc,
                params.as_slice(),
                body.get(),
                desk,
                flips,
                world,
                into,
            )
        }
        Effect::When(condition, body) => {
            desk.since = 0;
            let given = holds_in(condition, desk, flips, flips.last, world)?;
            if given {
                return gather(alloc, body.get(), desk, flips, world, into);
            }
            Ok(())
        }
    }
}

/// The same, of each of the effects.
#[cycle(gather)]
fn gather_each(
    alloc: Global,
    parts: &[Effect],
    desk: &mut Desk,
    flips: &Flips,
    world: &World<'_>,
    into: &mut Touched,
) -> Result<(), Memory>
    requires world { IsWorld world.now }
    ensures gathered { OnOk result (GetsEach world.now flips.now desk.old.values.items into.old into.new parts.now) }
    ensures kept { OnOk result (desk.new.values.items ≡ desk.old.values.items) }
{
    for part in parts {
        gather(alloc, part, desk, flips, world, into)?;
    }
    Ok(())
}

/// The same, of the effect with all objects of these types.
#[cycle(gather)]
fn gather_within(
    alloc: Global,
    params: &[Param],
    body: &Effect,
    desk: &mut Desk,
    flips: &Flips,
    world: &World<'_>,
    into: &mut Touched,
) -> Result<(), Memory>
    requires world { IsWorld world.now }
    ensures gathered { OnOk result (GetsWithin world.now flips.now desk.old.values.items into.old into.new params.now body.now) }
    ensures kept { OnOk result (desk.new.values.items ≡ desk.old.values.items) }
{
    let Some((param, rest)) = params.split_first() else {
        return gather(alloc, body, desk, flips, world, into);
    };
    match world.domain(param.ty) {
        Some(domain) => gather_of(alloc, &domain, param, rest, body, desk, flips, world, into),
        None => gather_in_parts(alloc, param, rest, body, desk, flips, world, into),
    }
}

/// The same, where nothing is known of the first type beforehand. It keeps the room for the marks of its parts out of the
/// way of the rest.
#[cycle(gather)]
#[cold]
#[inline(never)]
fn gather_in_parts(
    alloc: Global,
    param: &Param,
    rest: &[Param],
    body: &Effect,
    desk: &mut Desk,
    flips: &Flips,
    world: &World<'_>,
    into: &mut Touched,
) -> Result<(), Memory>
    requires world { IsWorld world.now }
    ensures gathered { OnOk result
        (GetsWithin world.now flips.now desk.old.values.items into.old into.new (param.now ∷ rest.now) body.now) }
    ensures kept { OnOk result (desk.new.values.items ≡ desk.old.values.items) }
{
    let parts = Parts::new(world.types, param.ty);
    let domain = Domain::among(world.objects, &parts);
    gather_of(alloc, &domain, param, rest, body, desk, flips, world, into)
}

/// The same, where the domain has the objects of the first type.
#[cycle(gather)]
fn gather_of(
    alloc: Global,
    domain: &Domain<'_>,
    param: &Param,
    rest: &[Param],
    body: &Effect,
    desk: &mut Desk,
    flips: &Flips,
    world: &World<'_>,
    into: &mut Touched,
) -> Result<(), Memory>
    requires world { IsWorld world.now }
    requires domain { IsDomainIn world.now param.now.ty domain.now }
    ensures gathered { OnOk result
        (GetsWithin world.now flips.now desk.old.values.items into.old into.new (param.now ∷ rest.now) body.now) }
    ensures kept { OnOk result (desk.new.values.items ≡ desk.old.values.items) }
{
    for place in 0..domain.len() {
        if let Some(object) = domain.at(place) {
            desk.push(object)?;
            gather_within(alloc, rest, body, desk, flips, world, into)?;
            desk.pop();
        }
    }
    Ok(())
}
