ghost use Rattle.std.specs.Prelude.{◌≡◌, ◌++◌, IfOk, OnOk};
ghost use Rattle.slot_encoding.specs.slot_declarations.Frames.{IsFrame};
ghost use Rattle.slot_encoding.specs.slot_declarations.Made as slots;
ghost use Rattle.stack_encoder.specs.Made as made;

use htn_base::{List, Memory, Name};
use plan_model::{Object, Predicate};
use slot_encoding::slot_declarations::{Declarations, Frame, declarations_of, named};
use std::alloc::Global;

/// What the printed problem declares: what it declares with slots, but cell 0 stands before the others, and the predicates of the tip and
/// of what is above stand in the places of those of free slots and of their order.
pub(crate) fn declared(alloc: Global, frame: &Frame<'_>) -> Result<Declarations, Memory>
    requires { IsFrame frame.now }
    ensures { IfOk result (made.AreDeclared frame.now) }
{
    let Declarations {
        types,
        objects,
        predicates,
    } = declarations_of(alloc, frame)?;
    let cells = with_lowest(alloc, frame, objects.as_slice())?;
    let tips = with_tip(alloc, frame, predicates.as_slice())?;
    Ok(Declarations {
        types,
        objects: cells,
        predicates: tips,
    })
}

/// The objects of the encoding with slots, and cell 0 before the slots.
fn with_lowest(alloc: Global, frame: &Frame<'_>, objects: &[Object]) -> Result<List<Object>, Memory>
    requires frame { IsFrame frame.now }
    requires objects { objects.now ≡ slots.objects frame.now }
    ensures { IfOk result (λ os. os ≡ made.objects frame.now) }
{
    let first = frame.compiled.hddl.objects.len();
    let mut into = List::new(alloc);
    push_objects(&objects[..first], &mut into)?;
    into.push(Object {
        name: named(frame, b"htn_s0"),
        ty: 1,
        constant: true,
    })?;
    push_objects(&objects[first..], &mut into)?;
    Ok(into)
}

fn push_objects(objects: &[Object], into: &mut List<Object>) -> Result<(), Memory>
    ensures { OnOk result (into.new ≡ into.old ++ objects.now) }
{
    for object in objects {
        into.push(*object)?;
    }
    Ok(())
}

/// The predicates of the encoding with slots, two of which have other names.
fn with_tip(
    alloc: Global,
    frame: &Frame<'_>,
    predicates: &[Predicate],
) -> Result<List<Predicate>, Memory>
    requires frame { IsFrame frame.now }
    requires predicates { predicates.now ≡ slots.predicates frame.now }
    ensures { IfOk result (λ ps. ps ≡ made.predicates frame.now) }
{
    let tip = frame.compiled.hddl.predicates.len() + 1;
    let mut into = List::new(alloc);
    push_predicates(alloc, &predicates[..tip], &mut into)?;
    into.put(copied(alloc, named(frame, b"htn_tip"), &predicates[tip]))?;
    into.put(copied(alloc, named(frame, b"htn_up"), &predicates[tip + 1]))?;
    push_predicates(alloc, &predicates[tip + 2..], &mut into)?;
    Ok(into)
}

fn push_predicates(
    alloc: Global,
    predicates: &[Predicate],
    into: &mut List<Predicate>,
) -> Result<(), Memory>
    ensures { OnOk result (into.new ≡ into.old ++ predicates.now) }
{
    for predicate in predicates {
        into.put(copied(alloc, predicate.name, predicate))?;
    }
    Ok(())
}

/// A predicate of this name with the same parameters.
fn copied(alloc: Global, name: Name, predicate: &Predicate) -> Result<Predicate, Memory>
    ensures { IfOk result (λ p. p ≡ record { name = name; params = predicate.now.params }) }
{
    let params = predicate.params.copy(alloc)?;
    Ok(Predicate { name, params })
}
