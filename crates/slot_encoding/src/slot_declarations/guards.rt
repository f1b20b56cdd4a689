ghost use Rattle.std.specs.Prelude.{◌≡◌, ◌==◌, [], position, IfOk, OnOk};
ghost use Rattle.slot_encoding.specs.EncodedNames as spec;
ghost use Rattle.slot_encoding.specs.slot_declarations.Frames.{IsFrame};
ghost use Rattle.slot_encoding.specs.slot_declarations.Guards.{with_type};
ghost use Rattle.slot_encoding.specs.slot_declarations.Made as made;

use crate::slot_declarations::frame::Frame;
use crate::slot_declarations::numbers::plus;
use crate::slot_declarations::words::{named, numbered_word, prefixed_word};
use htn_base::{List, Memory, Name, Text, number};
use plan_model::Compiled;
use std::alloc::Global;

/// The types of the guards of all methods, each once, in order of first use; or want of memory.
pub fn guard_types(alloc: Global, c: &Compiled) -> Result<List<u32>, Memory>
    ensures { IfOk result (λ types. types ≡ spec.guard_types c.now) }
{
    let methods = c.methods.as_slice();
    let mut types = List::new(alloc);
    for plan in methods {
        let guards = plan.guards.as_slice();
        for guard in guards {
            push_type(guard.ty, &mut types)?;
        }
    }
    Ok(types)
}

fn push_type(ty: u32, types: &mut List<u32>) -> Result<(), Memory>
    ensures { OnOk result (types.new ≡ with_type types.old ty) }
{
    if types.as_slice().contains(&ty) {
        Ok(())
    } else {
        types.push(ty)
    }
}

/// The name of a guard's predicate.
pub(crate) fn guard_name(alloc: Global, frame: &Frame<'_>, ty: u32) -> Result<Name, Memory>
    ensures { IfOk result (λ n. n ≡ made.guard_name frame.now ty) }
{
    let word = guard_word(alloc, frame.compiled, ty)?;
    Ok(named(frame, word.as_slice()))
}

/// The word of a guard's predicate: `htn_is_` and the type's word, or `htn_in_` and the number of the union from 1.
pub(crate) fn guard_word(alloc: Global, c: &Compiled, ty: u32) -> Result<Text, Memory>
    ensures { IfOk result (λ text. text ≡ spec.guard_word c.now [] 0 ty) }
{
    let names = c.hddl.types.names.as_slice();
    match names.get(ty as usize) {
        Some(name) => prefixed_word(alloc, &c.hddl.names, b"htn_is_", *name),
        None => {
            let place = number(ty as usize - names.len())?;
            numbered_word(alloc, b"htn_in_", plus(place, 1)?)
        }
    }
}

/// The predicate of a guard of this type.
pub fn guard_predicate(frame: &Frame<'_>, ty: u32) -> Result<u32, Memory>
    requires { IsFrame frame.now }
    ensures { IfOk result (λ p. p ≡ spec.guard_predicate frame.now.compiled.now ty) }
{
    let place = place_of(frame.basis.guard_types.as_slice(), ty).unwrap_or(0);
    plus(frame.basis.numbers.first_guard, number(place)?)
}

fn place_of(types: &[u32], ty: u32) -> Option<usize>
    ensures { result ≡ position (λ u. u == ty) types.now }
{
    types.iter().position(|u| *u == ty)
}
