ghost use Rattle.std.specs.Prelude.{◌≡◌, ◌++◌, IfOk, OnOk};
ghost use Rattle.plan_model.specs.Parts.{AreListed};
ghost use Rattle.plan_model.specs.declared.options.Style.TheVariants.{Adl};
ghost use Rattle.slot_encoding.specs.slot_declarations.Frames.{IsFrame};
ghost use Rattle.stack_encoder.specs.Made as made;

use crate::atoms::is_tip;
use htn_base::{List, Memory};
use plan_model::{Facts, Formula, Term};
use slot_encoder::{push_condition, push_guards, push_single};
use slot_encoding::slot_declarations::{Frame, plus};
use std::alloc::Global;

/// What is true at the start: cell 1 holds the top task and is the tip, the cells lie one above the other, the source's atoms, each once,
/// and for each type of a guard its objects.
pub(crate) fn initial_of(alloc: Global, frame: &Frame<'_>) -> Result<Facts, Memory>
    requires frame { IsFrame frame.now }
    requires adl { frame.now.style ≡ Adl }
    requires listed { AreListed frame.now.compiled.now.hddl.types }
    ensures { IfOk result (made.IsInitial frame.now) }
{
    let most = frame.basis.order.first_slot.max(frame.basis.numbers.top);
    let mut into = Facts::new(alloc);
    push_cells(frame, &mut into)?;
    push_single(alloc, &frame.compiled.hddl.init, most, &mut into)?;
    push_guards(alloc, frame, frame.basis.guard_types.as_slice(), &mut into)?;
    Ok(into)
}

/// Puts at the end what is true of cells.
fn push_cells(frame: &Frame<'_>, into: &mut Facts) -> Result<(), Memory>
    requires { IsFrame frame.now }
    ensures { OnOk result (into.new ≡ into.old ++ made.cell_atoms frame.now) }
{
    let numbers = frame.basis.numbers;
    let lowest = frame.basis.order.first_slot;
    let first = plus(lowest, 1)?;
    into.push(numbers.top, &[first])?;
    into.push(numbers.free, &[first])?;
    for k in 0..frame.slots {
        into.push(numbers.before, &[lowest + k, lowest + k + 1])?;
    }
    Ok(())
}

/// The source goal, and that the tip is cell 0.
pub(crate) fn goal_of(alloc: Global, frame: &Frame<'_>) -> Result<Formula, Memory>
    requires { IsFrame frame.now }
    ensures { IfOk result (λ f. f ≡ made.goal frame.now) }
{
    let lowest = Term::Obj(frame.basis.order.first_slot);
    let mut into = List::new(alloc);
    push_condition(alloc, frame, 0, &frame.compiled.hddl.goal, &mut into)?;
    into.put(is_tip(alloc, frame, lowest).map(Formula::Holds))?;
    Ok(Formula::And(into))
}
