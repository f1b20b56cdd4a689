ghost use Rattle.std.specs.Prelude.{◌≡◌, map, IfOk};
ghost use Rattle.slot_encoding.specs.SourceParts as parts;
ghost use Rattle.slot_encoding.specs.slot_declarations.Pieces.{printed_parents};
ghost use Rattle.slot_encoding.specs.slot_declarations.Frames.{IsFrame};
ghost use Rattle.slot_encoding.specs.slot_declarations.Made as made;

use crate::slot_declarations::frame::Frame;
use crate::slot_declarations::words::{named, renamed};
use htn_base::{List, Memory, Name};
use plan_model::{Parent, Types};
use std::alloc::Global;

/// A type of the source as it is numbered in the printed problem, where two generated types come first. A number past
/// 2^32 - 1, which no value in memory has, is answered as want of memory.
pub(crate) fn retyped(ty: u32) -> Result<u32, Memory>
    ensures { IfOk result (λ t. t ≡ parts.retyped ty) }
{
    match ty {
        0 => Ok(2),
        _ => ty.checked_add(2).ok_or(Memory),
    }
}

/// The types of the printed problem: `object`, slots, what was `object`, and the source's types.
pub(crate) fn encoded_types(alloc: Global, frame: &Frame<'_>) -> Result<Types, Memory>
    requires { IsFrame frame.now }
    ensures { IfOk result (λ types. types ≡ made.types frame.now) }
{
    let types = &frame.compiled.hddl.types;
    Ok(Types {
        names: type_names(alloc, frame, types.names.as_slice())?,
        parents: parents(alloc, types.parents.as_slice())?,
        unions: unions(alloc, types.unions.as_slice())?,
    })
}

fn type_names(alloc: Global, frame: &Frame<'_>, names: &[Name]) -> Result<List<Name>, Memory>
    requires { IsFrame frame.now }
    ensures { IfOk result (λ ns. ns ≡ made.type_names frame.now names.now) }
{
    let mut into = List::new(alloc);
    into.push(named(frame, b"object"))?;
    into.push(named(frame, b"htn_slot"))?;
    into.push(named(frame, b"htn_object"))?;
    if !names.is_empty() {
        let later = &names[1..];
        for name in later {
            into.push(renamed(frame, *name))?;
        }
    }
    Ok(into)
}

fn parents(alloc: Global, pairs: &[Parent]) -> Result<List<Parent>, Memory>
    ensures { IfOk result (λ ps. ps ≡ printed_parents pairs.now) }
{
    let mut into = List::new(alloc);
    into.push(Parent {
        child: 1,
        parent: 0,
    })?;
    into.push(Parent {
        child: 2,
        parent: 0,
    })?;
    for pair in pairs {
        into.push(Parent {
            child: retyped(pair.child)?,
            parent: retyped(pair.parent)?,
        })?;
    }
    Ok(into)
}

fn unions(alloc: Global, unions: &[List<u32>]) -> Result<List<List<u32>>, Memory>
    ensures { IfOk result (λ us. us ≡ map (map parts.retyped) unions.now) }
{
    let mut into = List::new(alloc);
    for types in unions {
        let types = types.as_slice();
        let mut union = List::new(alloc);
        for ty in types {
            union.put(retyped(*ty))?;
        }
        into.push(union)?;
    }
    Ok(into)
}
