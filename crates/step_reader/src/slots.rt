ghost use Rattle.std.specs.Prelude.{IfOk};
ghost use Rattle.ground_state.specs.Runs.{texts};
ghost use Rattle.step_reader.specs.Arguments as spec;

use htn_base::{Memory, slot_number};

/// The number of the slot of this word, where it is one of so many.
pub(crate) fn slot_within(slots: u32, word: &[u8]) -> Option<u32>
    ensures { spec.IsTheSlot slots word.now result }
{
    match slot_number(word) {
        Some(slot) if slot <= slots => Some(slot),
        _ => None,
    }
}

/// Writes down the numbers of the slots of these words, where each is one of so many, in place of what was written there. Where
/// not, the answer is no, and whatever is written.
pub(crate) fn fill_slots(slots: u32, words: &[&[u8]], into: &mut Vec<u32>) -> Result<bool, Memory>
    ensures { IfOk result (λ found. spec.AreTheSlots slots (texts words.now) found into.new.items) }
{
    into.clear();
    for word in words {
        match slot_within(slots, word) {
            Some(slot) => into.push(slot)?,
            None => return Ok(false),
        }
    }
    Ok(true)
}
