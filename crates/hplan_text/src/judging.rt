ghost use Rattle.std.specs.Prelude.{ℕ, ◌≡◌, List, map, IfOk};
ghost use Rattle.std.specs.List.Sorted.{IsStrictlyIncreasing};
ghost use Rattle.hplan_text.specs.Lines.{Line};
ghost use Rattle.hplan_text.specs.HPlanFaults.{line_faults, no_root};
ghost use Rattle.hplan_text.specs.LeastOf.{IsLeastOf};
ghost use Rattle.hplan_text.specs.Drafts.{IsDraft, Judges, JudgesIds, are_some, between};
ghost use Rattle.hplan_text.specs.Marks.{HaveIds};
ghost use Rattle.hplan_text.specs.Rows.{row};

use crate::draft::Draft;
use crate::ids::{in_order, least_id, least_other};
use crate::least::{Found, least};
use crate::reaching::reached;
use htn_base::Memory;
use std::alloc::Global;

/// The code of an end line in front of which no root line stands.
const NO_ROOT: u16 = 35;

/// The code of a line that the root doesn't reach.
const UNREACHED: u16 = 36;

// That no line is a root line, at the place of the end line.
fn root_fault(rooted: bool, end: u32) -> Option<Found>
    ensures { (places : List ℕ) → rooted ≡ are_some places → IsLeastOf result (no_root places end) }
{
    if rooted {
        None
    } else {
        Some(Found {
            at: end,
            code: NO_ROOT,
        })
    }
}

// The least fault of lines, where the end line stands at a place.
fn least_line(draft: &Draft, end: u32) -> Option<Found>
    ensures { (ls : List Line) → IsDraft ls draft.now → IsLeastOf result (line_faults (between ls end)) }
{
    least(
        draft.bad,
        least(draft.second, root_fault(draft.rooted, end)),
    )
}

// The least fault of ids, or where there is none, of a line that the root doesn't reach. These are the ids in front of lines.
fn least_of_ids(alloc: Global, draft: &Draft, ids: &[u64]) -> Result<Option<Found>, Memory>
    requires lines { (ls : List Line) × IsDraft ls draft.now }
    requires rises { IsStrictlyIncreasing ids.now }
    requires same { HaveIds ids.now draft.now.own.items }
    ensures judged { IfOk result (λ found. (ls : List Line) → IsDraft ls draft.now → JudgesIds (map row ls) found) }
{
    let own = draft.own.as_slice();
    if let Some(found) = least_id(alloc, ids, own, draft.listed.as_slice())? {
        return Ok(Some(found));
    }
    let reached = reached(alloc, &draft.plan, ids)?;
    Ok(least_other(ids, &reached, own, UNREACHED))
}

/// The least fault of what was read of lines, where the end line stands at a place.
pub(crate) fn judge(alloc: Global, draft: &Draft, end: u32) -> Result<Option<Found>, Memory>
    requires lines { (ls : List Line) × IsDraft ls draft.now }
    ensures judged { IfOk result (λ found. (ls : List Line) → IsDraft ls draft.now → Judges (between ls end) found) }
{
    if let Some(found) = least_line(draft, end) {
        return Ok(Some(found));
    }
    let ids = in_order(alloc, draft.own.as_slice())?;
    least_of_ids(alloc, draft, ids.as_slice())
}
