ghost use Rattle.std.specs.Prelude.{◌≡◌, flat_map, map, IfOk, OnOk};
ghost use Rattle.name_binding.specs.Spots.{noted};
ghost use Rattle.hddl_bind.specs.Cycle.{IsOrderNoted, cycle_faults, limit_faults};
ghost use Rattle.hddl_bind.specs.Networks as spec;
ghost use Rattle.hddl_bind.specs.Pairs.{pairs_bound};

use crate::callables::Callables;
use crate::calls::head_of;
use crate::cycle::cycle_of;
use crate::ids::ids_of;
use crate::pairs::pairs_of;
use hddl_reader::{RawCon, RawNet, RawSub};
use htn_base::limits::MOST_SUBTASKS;
use htn_base::{List, Memory};
use name_binding::{Faults, Places, Variables, term_of, terms_of};
use plan_model::{Child, Constraint, Pair};
use std::alloc::Global;

/// A network with its names bound: subtasks in text order, the pairs by their numbers from 0, the constraints.
pub struct BoundNet {
    pub children: List<Child>,
    pub pairs: List<Pair>,
    pub constraints: List<Constraint>,
}

impl Drop for BoundNet {
    fn drop(self) {
        let BoundNet {
            children: _,
            pairs: _,
            constraints: _,
        } = self;
    }
}

impl BoundNet {
    /// Its subtasks, its pairs and its constraints.
    pub(crate) fn into_parts(self) -> (List<Child>, List<Pair>, List<Constraint>)
        ensures parts { result ≡ (self.children, self.pairs, self.constraints) }
    {
        let BoundNet {
            children,
            pairs,
            constraints,
        } = self;
        (children, pairs, constraints)
    }
}

/// The network for which a written network stands, and its faults: 10 and 19 of ids, 14 to 17 of the names in subtasks and
/// constraints, 20 where the pairs have a cycle, 21 where there are too many subtasks. What `ids` holds is of no matter: the table
/// is lent to network after network, and is emptied first.
pub fn network_of(
    alloc: Global,
    callables: &Callables,
    objects: &Places,
    scope: &Variables,
    ids: &mut Places,
    net: &RawNet,
    faults: &mut Faults,
) -> Result<BoundNet, Memory>
    ensures bound { IfOk result
        (λ bound. bound ≡ spec.network_bound callables.now objects.now scope.now net.now) }
    ensures faults { OnOk result (spec.AreNoted callables.now objects.now scope.now net.now
        faults.old.least faults.new.least) }
{
    let pairs = order_of(alloc, ids, net, faults)?;
    let children = children_of(
        alloc,
        callables,
        objects,
        scope,
        net.subs.as_slice(),
        faults,
    )?;
    let constraints = constraints_of(alloc, objects, scope, net.constraints.as_slice(), faults)?;
    Ok(BoundNet {
        children,
        pairs,
        constraints,
    })
}

/// The pairs of a network, and the faults of its ids and of its order.
fn order_of(
    alloc: Global,
    ids: &mut Places,
    net: &RawNet,
    faults: &mut Faults,
) -> Result<List<Pair>, Memory>
    ensures pairs { IfOk result (λ pairs. pairs ≡ pairs_bound net.now) }
    ensures faults { OnOk result (IsOrderNoted net.now faults.old.least faults.new.least) }
{
    ids.clear();
    let places = ids_of(alloc, ids, net.subs.as_slice(), faults)?;
    let ordering = pairs_of(alloc, ids, places.as_slice(), net, faults)?;
    drop(places);
    note_cycle(cycle_of(alloc, net, &ordering)?, faults);
    note_limit(net.subs.as_slice(), faults);
    Ok(ordering.into_pairs())
}

fn note_cycle(cycle: Option<u32>, faults: &mut Faults)
    ensures faults { faults.new.least ≡ noted faults.old.least (cycle_faults cycle) }
{
    if let Some(at) = cycle {
        faults.note(at, 20);
    }
}

fn note_limit(subs: &[RawSub], faults: &mut Faults)
    ensures faults { faults.new.least ≡ noted faults.old.least (limit_faults subs.now) }
{
    if let Some(sub) = subs.get(MOST_SUBTASKS) {
        faults.note(sub.at, 21);
    }
}

fn children_of(
    alloc: Global,
    callables: &Callables,
    objects: &Places,
    scope: &Variables,
    subs: &[RawSub],
    faults: &mut Faults,
) -> Result<List<Child>, Memory>
    ensures bound { IfOk result (λ children.
        children ≡ map (spec.child_bound callables.now objects.now scope.now) subs.now) }
    ensures faults { OnOk result (faults.new.least ≡ noted faults.old.least
        (flat_map (spec.child_faults callables.now objects.now scope.now) subs.now)) }
{
    let mut children = List::with_room(alloc, subs.len())?;
    for sub in subs {
        children.put(child_of(alloc, callables, objects, scope, sub, faults))?;
    }
    Ok(children)
}

fn child_of(
    alloc: Global,
    callables: &Callables,
    objects: &Places,
    scope: &Variables,
    sub: &RawSub,
    faults: &mut Faults,
) -> Result<Child, Memory>
    ensures bound { IfOk result
        (λ child. child ≡ spec.child_bound callables.now objects.now scope.now sub.now) }
    ensures faults { OnOk result (faults.new.least ≡ noted faults.old.least
        (spec.child_faults callables.now objects.now scope.now sub.now)) }
{
    let head = head_of(callables, &sub.atom, faults);
    let args = terms_of(alloc, objects, scope, &sub.atom.args, faults)?;
    let id = match sub.id {
        Some(id) => Some(id.name),
        None => None,
    };
    Ok(Child { id, head, args })
}

fn constraints_of(
    alloc: Global,
    objects: &Places,
    scope: &Variables,
    written: &[RawCon],
    faults: &mut Faults,
) -> Result<List<Constraint>, Memory>
    ensures bound { IfOk result (λ constraints.
        constraints ≡ map (spec.constraint_bound objects.now scope.now) written.now) }
    ensures faults { OnOk result (faults.new.least ≡ noted faults.old.least
        (flat_map (spec.constraint_faults objects.now scope.now) written.now)) }
{
    let mut constraints = List::new(alloc);
    for constraint in written {
        constraints.push(constraint_of(objects, scope, *constraint, faults))?;
    }
    Ok(constraints)
}

#[tactic(auto, using(crate::proofs::Steps::noted_two))]
fn constraint_of(
    objects: &Places,
    scope: &Variables,
    written: RawCon,
    faults: &mut Faults,
) -> Constraint
    ensures bound { result ≡ spec.constraint_bound objects.now scope.now written }
    ensures faults { faults.new.least ≡ noted faults.old.least
        (spec.constraint_faults objects.now scope.now written) }
{
    let left = term_of(objects, scope, written.left, faults);
    let right = term_of(objects, scope, written.right, faults);
    Constraint {
        equal: written.equal,
        left,
        right,
    }
}
