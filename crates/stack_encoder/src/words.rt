ghost use Rattle.std.specs.Prelude.{IfOk};
ghost use Rattle.slot_encoding.specs.slot_declarations.Frames.{HasSourceWords};
ghost use Rattle.stack_encoding.specs.StackWords.{HasStackWords};

use htn_base::{Memory, NameTable};
use plan_model::Compiled;
use slot_encoding::slot_declarations::vocabulary_of;
use std::alloc::Global;

/// The words that a stack has besides those of slots.
const MORE_WORDS: &[&[u8]] = &[b"htn_s0", b"htn_d", b"htn_tip", b"htn_up"];

/// The words of the printed problem with cells 0 to `cells`, in a table of their own: those that it has with slots, and some more.
pub(crate) fn words_of(alloc: Global, c: &Compiled, cells: u32) -> Result<NameTable, Memory>
    ensures words { IfOk result (HasStackWords c.now cells) }
    ensures source { IfOk result (HasSourceWords c.now.hddl.names) }
{
    let mut names = vocabulary_of(alloc, c, cells)?;
    let words = MORE_WORDS;
    for word in words {
        names.intern(word)?;
    }
    Ok(names)
}
