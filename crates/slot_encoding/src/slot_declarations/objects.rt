ghost use Rattle.std.specs.Prelude.{◌≡◌, true, IfOk};
ghost use Rattle.htn_base.specs.Escapes.{slot_word};
ghost use Rattle.slot_encoding.specs.SourceParts as parts;
ghost use Rattle.slot_encoding.specs.slot_declarations.Frames.{IsFrame};
ghost use Rattle.slot_encoding.specs.slot_declarations.Made as made;

use crate::slot_declarations::frame::Frame;
use crate::slot_declarations::types::retyped;
use crate::slot_declarations::words::{named, renamed};
use htn_base::{List, Memory, Name, NameTable, slot_name};
use itoa::Buffer;
use plan_model::Object;
use std::alloc::Global;

/// The source objects, and then the slots.
pub(crate) fn encoded_objects(alloc: Global, frame: &Frame<'_>) -> Result<List<Object>, Memory>
    requires { IsFrame frame.now }
    ensures { IfOk result (λ os. os ≡ made.objects frame.now) }
{
    let mut into = List::new(alloc);
    let objects = frame.compiled.hddl.objects.as_slice();
    for object in objects {
        into.push(Object {
            name: renamed(frame, object.name),
            ty: retyped(object.ty)?,
            constant: true,
        })?;
    }
    let first = named(frame, b"htn_s1").number;
    for k in 0..frame.slots {
        let expected = Name {
            number: first.saturating_add(k),
        };
        into.push(Object {
            name: name_of_slot(alloc, frame, 1 + k, expected)?,
            ty: 1,
            constant: true,
        })?;
    }
    Ok(into)
}

/// The name of a slot's word. The words of slots are put into a table one behind another: where the expected name is that of
/// this word, nothing is spelled or looked up.
fn name_of_slot(alloc: Global, frame: &Frame<'_>, k: u32, expected: Name) -> Result<Name, Memory>
    ensures { IfOk result (λ n. n ≡ parts.name frame.now.printed.now (slot_word k)) }
{
    if is_name_of_slot(frame.printed, expected, k) {
        return Ok(expected);
    }
    let word = slot_name(alloc, k)?;
    Ok(named(frame, word.as_slice()))
}

fn is_name_of_slot(printed: &NameTable, name: Name, k: u32) -> bool
    ensures { result ≡ true → name ≡ parts.name printed.now (slot_word k) }
{
    match printed.text(name) {
        Some(word) => is_word_of_slot(word, k),
        None => false,
    }
}

fn is_word_of_slot(word: &[u8], k: u32) -> bool
    ensures { result ≡ true → word.now ≡ slot_word k }
{
    match word.strip_prefix(b"htn_s") {
        Some(digits) => Buffer::new().format(k).as_bytes() == digits,
        None => false,
    }
}
