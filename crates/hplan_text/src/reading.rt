ghost use Rattle.std.specs.Prelude.{◌≡◌, [], ◌≤◌, drop, map, length, None, List, IfOk, IfErr, MatchOption};
ghost use Rattle.htn_base.specs.Limits.{longest_input};
ghost use Rattle.hplan_text.specs.Lines.{Line, lines_from, up_to_end, marked};
ghost use Rattle.hplan_text.specs.Drafts.{IsDraft, Drafts, FirstAt, Judges, RefusedBy, between};
ghost use Rattle.hplan_text.specs.Scanning.{as_said};
ghost use Rattle.hplan_text.specs.Reading.{IsHPlanRead, RefusesHPlan};

use crate::draft::Draft;
use crate::judging::judge;
use crate::lines::{Word, begin_plan, end_plan, next_line};
use crate::values::HPlan;
use htn_base::{Fault, Memory};
use std::alloc::Global;
use text_forms::sexpr_text::ReadError;

/// The code of a text without markers.
const NO_MARKER: u16 = 30;

// Goes behind the first line that begins a plan. `None` where there is none.
fn begin<'t>(text: &'t [u8], words: &mut Vec<Word<'t>>) -> Result<Option<usize>, Memory>
    requires short { length text.now ≤ longest_input }
    ensures begin { IfOk result (λ found. MatchOption found (marked text.now ≡ None)
        (λ at. marked text.now ≡ up_to_end (lines_from at (drop at text.now)))) }
{
    let mut at = 0;
    while at < text.len() {
        at = next_line(text, at, words)?;
        if begin_plan(words.as_slice()) {
            return Ok(Some(at));
        }
    }
    Ok(None)
}

// Reads the lines from a place on up to the end line, whose place is given. `None` where there is none.
fn draft_lines<'t>(
    alloc: Global,
    text: &'t [u8],
    from: usize,
    words: &mut Vec<Word<'t>>,
    draft: &mut Draft,
) -> Result<Option<u32>, Memory>
    requires short { length text.now ≤ longest_input }
    requires none { IsDraft [] draft.old }
    ensures lines { IfOk result (Drafts (up_to_end (lines_from from (drop from text.now))) draft.new) }
{
    let mut at = from;
    while at < text.len() {
        at = next_line(text, at, words)?;
        if end_plan(words.as_slice()) {
            return Ok(first_place(words.as_slice()));
        }
        draft.add_line(alloc, words.as_slice())?;
    }
    Ok(None)
}

// The place of the first word.
fn first_place(words: &[Word<'_>]) -> Option<u32>
    ensures { FirstAt (map as_said words.now) result }
{
    match words {
        [] => None,
        [first, ..] => Some(first.at),
    }
}

// Reads the lines between the markers; the place of the end line is given. `None` where either marker isn't there.
fn drafted(alloc: Global, text: &[u8], draft: &mut Draft) -> Result<Option<u32>, Memory>
    requires short { length text.now ≤ longest_input }
    requires none { IsDraft [] draft.old }
    ensures lines { IfOk result (Drafts (marked text.now) draft.new) }
{
    let mut words = Vec::new(alloc);
    match begin(text, &mut words)? {
        None => Ok(None),
        Some(from) => draft_lines(alloc, text, from, &mut words, draft),
    }
}

// The plan of a draft of lines, where it has no fault.
fn judged(alloc: Global, draft: Draft, end: u32, file: u8) -> Result<HPlan, ReadError>
    requires lines { (ls : List Line) × IsDraft ls draft }
    ensures read { IfOk result (λ plan. (ls : List Line) → IsDraft ls draft → Judges (between ls end) None × (plan ≡ draft.plan)) }
    ensures refused { IfErr result (λ error. (ls : List Line) → IsDraft ls draft → RefusedBy file (between ls end) error) }
{
    match judge(alloc, &draft, end) {
        Ok(None) => Ok(draft.into_plan()),
        Ok(Some(found)) => {
            drop(draft);
            Err(ReadError::Bad(Fault {
                code: found.code,
                file,
                at: found.at,
            }))
        }
        Err(Memory) => {
            drop(draft);
            Err(ReadError::Memory)
        }
    }
}

/// The hierarchical plan that a text of at most 16,777,216 bytes spells. Names are in lower case. `file` is the place of the
/// text among the command's inputs. `Bad` has the text's least fault: of lines (30, 31, 35), and where there is none, of ids
/// (32, 33, 34), and where there is none, the first line that `root` doesn't reach (36); of each kind by offset, then code.
pub fn read(alloc: Global, bytes: &[u8], file: u8) -> Result<HPlan, ReadError>
    requires short { length bytes.now ≤ longest_input }
    ensures read { IfOk result (IsHPlanRead bytes.now) }
    ensures refused { IfErr result (RefusesHPlan file bytes.now) }
{
    let mut draft = Draft::new(alloc);
    match drafted(alloc, bytes, &mut draft) {
        Ok(Some(end)) => judged(alloc, draft, end, file),
        Ok(None) => {
            drop(draft);
            Err(ReadError::Bad(Fault {
                code: NO_MARKER,
                file,
                at: bytes.len() as u32,
            }))
        }
        Err(Memory) => {
            drop(draft);
            Err(ReadError::Memory)
        }
    }
}
