ghost use Rattle.std.specs.Prelude.{IfOk};
ghost use Rattle.ground_state.specs.Runs.{texts};
ghost use Rattle.step_reader.specs.Cells as spec;

use htn_base::{Memory, slot_number};

/// The number of the cell of this word, from 0 to so many.
pub(crate) fn cell_within(cells: u32, word: &[u8]) -> Option<u32>
    ensures { spec.IsTheCell cells word.now result }
{
    if word == b"htn_s0".as_slice() {
        return Some(0);
    }
    match slot_number(word) {
        Some(cell) if cell <= cells => Some(cell),
        _ => None,
    }
}

/// Writes down the numbers of the cells of these words, where each is one from 0 to so many, in place of what was written there.
/// Where not, the answer is no, and whatever is written.
pub(crate) fn fill_cells(cells: u32, words: &[&[u8]], into: &mut Vec<u32>) -> Result<bool, Memory>
    ensures { IfOk result (λ found. spec.AreTheCells cells (texts words.now) found into.new.items) }
{
    into.clear();
    for word in words {
        match cell_within(cells, word) {
            Some(cell) => into.push(cell)?,
            None => return Ok(false),
        }
    }
    Ok(true)
}
