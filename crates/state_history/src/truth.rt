ghost use Rattle.std.specs.Prelude.{◌≡◌, ◌∷◌, IfOk, OnOk};
ghost use Rattle.problem_index.specs.Kinds.{IsWorld};
ghost use Rattle.ground_state.specs.Clauses.{IsDomainIn};
ghost use Rattle.state_history.specs.Desks.{IsLater};
ghost use Rattle.state_history.specs.Looks.{IsTruth, IsAmong, Finds};

use crate::desk::Desk;
use crate::flips::Flips;
use htn_base::Memory;
use plan_model::{Formula, Param, Parts};
use problem_index::{Domain, World};

/// Whether the formula is true in the gap, with the objects in force. The desk notes since when. A conjunction stops at its first
/// false part.
#[cycle(holds_in)]
pub(crate) fn holds_in(
    f: &Formula,
    desk: &mut Desk,
    flips: &Flips,
    gap: u32,
    world: &World<'_>,
) -> Result<bool, Memory>
    requires world { IsWorld world.now }
    ensures truth { IfOk result (IsTruth world.now flips.now desk.old.values.items gap f.now desk.new) }
    ensures kept { OnOk result (IsLater gap desk.old desk.new) }
{
    match f {
        Formula::Holds(atom) => desk.holds(atom, flips, gap),
        Formula::Equal(left, right) => Ok(desk.value(*left) == desk.value(*right)),
        Formula::Not(part) => {
            let truth = holds_in(part.get(), desk, flips, gap, world)?;
            Ok(!truth)
        }
        Formula::And(parts) => {
            let found = is_among(false, parts.as_slice(), desk, flips, gap, world)?;
            Ok(!found)
        }
        Formula::Or(parts) => is_among(true, parts.as_slice(), desk, flips, gap, world),
        Formula::Imply(premise, conclusion) => {
            let given = holds_in(premise.get(), desk, flips, gap, world)?;
            if given {
                return holds_in(conclusion.get(), desk, flips, gap, world);
            }
            Ok(true)
        }
        Formula::Forall(params, body) => {
            let params = params.as_slice();
            let found = is_found(false, params, body.get(), desk, flips, gap, world)?;
            Ok(!found)
        }
        Formula::Exists(params, body) => {
            is_found(true, params.as_slice(), body.get(), desk, flips, gap, world)
        }
    }
}

/// Whether one of the formulas is true, or one is false, as wanted.
#[cycle(holds_in)]
fn is_among(
    wanted: bool,
    parts: &[Formula],
    desk: &mut Desk,
    flips: &Flips,
    gap: u32,
    world: &World<'_>,
) -> Result<bool, Memory>
    requires world { IsWorld world.now }
    ensures answer { IfOk result (IsAmong world.now flips.now desk.old.values.items gap wanted parts.now desk.new) }
    ensures kept { OnOk result (IsLater gap desk.old desk.new) }
{
    for part in parts {
        let truth = holds_in(part, desk, flips, gap, world)?;
        if truth == wanted {
            return Ok(true);
        }
    }
    Ok(false)
}

/// Whether for some objects of these types the formula is true, or false, as wanted.
#[cycle(holds_in)]
fn is_found(
    wanted: bool,
    params: &[Param],
    body: &Formula,
    desk: &mut Desk,
    flips: &Flips,
    gap: u32,
    world: &World<'_>,
) -> Result<bool, Memory>
    requires world { IsWorld world.now }
    ensures answer { IfOk result (Finds world.now flips.now desk.old.values.items gap wanted params.now body.now desk.new) }
    ensures kept { OnOk result (IsLater gap desk.old desk.new) }
{
    let Some((param, rest)) = params.split_first() else {
        let truth = holds_in(body, desk, flips, gap, world)?;
        return Ok(truth == wanted);
    };
    match world.domain(param.ty) {
        Some(domain) => is_found_of(wanted, &domain, param, rest, body, desk, flips, gap, world),
        None => is_found_in_parts(wanted, param, rest, body, desk, flips, gap, world),
    }
}

/// The same, where nothing is known of the first type beforehand. It keeps the room for the marks of its parts out of the
/// way of the rest.
#[cycle(holds_in)]
#[cold]
#[inline(never)]
fn is_found_in_parts(
    wanted: bool,
    param: &Param,
    rest: &[Param],
    body: &Formula,
    desk: &mut Desk,
    flips: &Flips,
    gap: u32,
    world: &World<'_>,
) -> Result<bool, Memory>
    requires world { IsWorld world.now }
    ensures answer { IfOk result (Finds world.now flips.now desk.old.values.items gap wanted (param.now ∷ rest.now) body.now desk.new) }
    ensures kept { OnOk result (IsLater gap desk.old desk.new) }
{
    let parts = Parts::new(world.types, param.ty);
    let domain = Domain::among(world.objects, &parts);
    is_found_of(wanted, &domain, param, rest, body, desk, flips, gap, world)
}

/// The same, where the domain has the objects of the first type.
#[cycle(holds_in)]
fn is_found_of(
    wanted: bool,
    domain: &Domain<'_>,
    param: &Param,
    rest: &[Param],
    body: &Formula,
    desk: &mut Desk,
    flips: &Flips,
    gap: u32,
    world: &World<'_>,
) -> Result<bool, Memory>
    requires world { IsWorld world.now }
    requires domain { IsDomainIn world.now param.now.ty domain.now }
    ensures answer { IfOk result (Finds world.now flips.now desk.old.values.items gap wanted (param.now ∷ rest.now) body.now desk.new) }
    ensures kept { OnOk result (IsLater gap desk.old desk.new) }
{
    for place in 0..domain.len() {
        if let Some(object) = domain.at(place) {
            desk.push(object)?;
            let found = is_found(wanted, rest, body, desk, flips, gap, world)?;
            desk.pop();
            if found {
                return Ok(true);
            }
        }
    }
    Ok(false)
}
