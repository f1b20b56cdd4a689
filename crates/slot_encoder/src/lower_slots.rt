ghost use Rattle.std.specs.Prelude.{◌≡◌, ◌<◌, ◌^◌, length, IfOk};
ghost use Rattle.plan_model.specs.declared.options.Slots.TheVariants.{First};
ghost use Rattle.slot_encoding.specs.FirstFree as first;
ghost use Rattle.slot_encoding.specs.FirstFree.{HasWordsBy};
ghost use Rattle.slot_encoding.specs.slot_declarations.Frames.{IsFrame, HasSourceWords};
ghost use Rattle.slot_encoder.specs.Made as made;

use htn_base::{List, Memory, NameTable, number};
use plan_model::{Compiled, Param, Predicate, Slots};
use slot_encoding::slot_declarations::{
    Declarations, Frame, declarations_of, named, plus, slot_param, vocabulary_of,
};
use std::alloc::Global;

/// By which numbers it is said that slots are lower than others, and free: the predicates of what is free and of what is lower, a
/// variable for another slot, and the first slot as an object.
#[derive(Clone, Copy)]
pub struct LowerSlots {
    pub free: u32,
    pub less: u32,
    pub other: Param,
    pub first: u32,
}

/// Those of a printed problem, where a method takes the lowest free slots.
pub(crate) fn lower_slots(frame: &Frame<'_>, rule: &Slots) -> Result<Option<LowerSlots>, Memory>
    requires { IsFrame frame.now }
    ensures { IfOk result (λ slots. slots ≡ made.lower_slots frame.now rule.now) }
{
    match rule {
        Slots::Any => Ok(None),
        Slots::First => {
            let guards = number(frame.basis.guard_types.len())?;
            Ok(Some(LowerSlots {
                free: frame.basis.numbers.free,
                less: plus(frame.basis.numbers.first_guard, guards)?,
                other: slot_param(frame.basis.order.x),
                first: frame.basis.order.first_slot,
            }))
        }
    }
}

/// The words of the printed problem with so many slots, in a table of their own, with the word for lower slots where a method
/// takes the lowest free ones.
pub(crate) fn words_of(
    alloc: Global,
    c: &Compiled,
    slots: u32,
    rule: &Slots,
) -> Result<NameTable, Memory>
    ensures words { IfOk result (HasWordsBy rule.now c.now slots) }
    ensures source { IfOk result (HasSourceWords c.now.hddl.names) }
{
    let mut names = vocabulary_of(alloc, c, slots)?;
    match rule {
        Slots::Any => Ok(names),
        Slots::First => match names.intern(b"htn_less") {
            Ok(_) => Ok(names),
            Err(memory) => {
                drop(names);
                Err(memory)
            }
        },
    }
}

/// The declarations, with the predicate for lower slots as the last one where a method takes the lowest free ones.
pub(crate) fn declared(
    alloc: Global,
    frame: &Frame<'_>,
    rule: &Slots,
) -> Result<Declarations, Memory>
    requires { IsFrame frame.now }
    ensures { IfOk result (made.AreDeclared frame.now rule.now) }
{
    let mut declarations = declarations_of(alloc, frame)?;
    match rule {
        Slots::Any => Ok(declarations),
        Slots::First => match declarations.predicates.put(less(alloc, frame)) {
            Ok(()) => Ok(declarations),
            Err(memory) => {
                drop(declarations);
                Err(memory)
            }
        },
    }
}

/// The predicate for lower slots.
fn less(alloc: Global, frame: &Frame<'_>) -> Result<Predicate, Memory>
    ensures { IfOk result (λ p. p ≡ made.less frame.now) }
{
    let mut params = List::new(alloc);
    params.push(slot_param(named(frame, b"htn_x")))?;
    params.push(slot_param(named(frame, b"htn_h")))?;
    Ok(Predicate {
        name: named(frame, b"htn_less"),
        params,
    })
}
