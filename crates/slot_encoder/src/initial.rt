ghost use Rattle.std.specs.Prelude.{◌≡◌, ◌++◌, map, IfOk, OnOk};
ghost use Rattle.plan_model.specs.Parts.{AreListed};
ghost use Rattle.slot_encoding.specs.EncodedValue as spec;
ghost use Rattle.slot_encoding.specs.slot_declarations.Frames.{IsFrame};
ghost use Rattle.slot_encoder.specs.Made as made;

use crate::single::push_single;
use htn_base::Memory;
use plan_model::{Facts, members};
use slot_encoding::slot_declarations::{Frame, guard_predicate, plus};
use std::alloc::Global;

/// What is true at the start: the first slot holds the top task, the others are free, the source's atoms, each once, and
/// for each type of a guard its objects.
pub(crate) fn encoded_initial(alloc: Global, frame: &Frame<'_>) -> Result<Facts, Memory>
    requires frame { IsFrame frame.now }
    requires listed { AreListed frame.now.compiled.now.hddl.types }
    ensures { IfOk result (made.IsInitial frame.now) }
{
    let mut into = Facts::new(alloc);
    push_first(alloc, frame, &mut into)?;
    push_guards(alloc, frame, frame.basis.guard_types.as_slice(), &mut into)?;
    Ok(into)
}

/// Puts at the end what is true of slots, and the source's atoms, each once.
fn push_first(alloc: Global, frame: &Frame<'_>, into: &mut Facts) -> Result<(), Memory>
    requires { IsFrame frame.now }
    ensures { OnOk result (into.new ≡ into.old ++ made.first_atoms frame.now) }
{
    let hddl = &frame.compiled.hddl;
    into.push(frame.basis.numbers.top, &[frame.basis.order.first_slot])?;
    for k in 0..frame.slots.saturating_sub(1) {
        let slot = plus(frame.basis.order.first_slot, 1 + k)?;
        into.push(frame.basis.numbers.free, &[slot])?;
    }
    let most = hddl.objects.len().max(hddl.predicates.len()) as u32;
    push_single(alloc, &hddl.init, most, into)
}

/// Puts at the end the atoms of these guards: for each the objects in its type.
pub fn push_guards(
    alloc: Global,
    frame: &Frame<'_>,
    types: &[u32],
    into: &mut Facts,
) -> Result<(), Memory>
    requires frame { IsFrame frame.now }
    requires listed { AreListed frame.now.compiled.now.hddl.types }
    ensures { OnOk result (made.AddsGuardAtoms frame.now types.now into.old into.new) }
{
    let hddl = &frame.compiled.hddl;
    for ty in types {
        let predicate = guard_predicate(frame, *ty)?;
        let listed = members(alloc, &hddl.types, &hddl.objects, *ty)?;
        push_atoms(predicate, listed.as_slice(), into)?;
    }
    Ok(())
}

fn push_atoms(predicate: u32, objects: &[u32], into: &mut Facts) -> Result<(), Memory>
    ensures { OnOk result (into.new ≡ into.old ++ map (spec.atom predicate) objects.now) }
{
    for object in objects {
        into.push(predicate, &[*object])?;
    }
    Ok(())
}
