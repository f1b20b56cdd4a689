ghost use Rattle.std.specs.Prelude.{◌≡◌, ◌≤◌, ◌++◌, Bool, length, map, IfOk};
ghost use Rattle.std.specs.List.Sorted.{IsStrictlyIncreasing};
ghost use Rattle.hplan_text.specs.Rows.{number};
ghost use Rattle.hplan_text.specs.HPlanFaults.{faults_at, is_among, repeats, others, id_faults_of};
ghost use Rattle.hplan_text.specs.LeastOf.{IsLeastOf};
ghost use Rattle.hplan_text.specs.Marks.{IsPlaceOf, HaveIds, has, chosen, Takes, Tells, wrong};

use crate::least::{Found, least, least_unless};
use crate::mention::Mention;
use htn_base::Memory;
use std::alloc::Global;

/// The code of an id in front of a second line.
const REPEATED_ID: u16 = 32;

/// The code of a listed id that no line has.
const UNKNOWN_ID: u16 = 33;

/// The code of an id that is listed again.
const USED_TWICE: u16 = 34;

/// What becomes of an id that is to be marked: it is none of the ids, it was marked before, or it is marked now, at its place.
#[derive(Clone, Copy)]
pub(crate) enum Taken {
    Unknown,
    Again,
    New(usize),
}

/// The ids, each once, in ascending order.
pub(crate) fn in_order(alloc: Global, mentions: &[Mention]) -> Result<Vec<u64>, Memory>
    ensures rises { IfOk result (λ ids. IsStrictlyIncreasing ids.items) }
    ensures same { IfOk result (λ ids. HaveIds ids.items mentions.now) }
{
    let mut ids = numbers(alloc, mentions)?;
    ids.sort_unstable();
    ids.dedup();
    Ok(ids)
}

// The ids in the text's order.
fn numbers(alloc: Global, mentions: &[Mention]) -> Result<Vec<u64>, Memory>
    ensures { IfOk result (λ ids. ids.items ≡ map number mentions.now) }
{
    let mut ids = Vec::with_capacity(alloc, mentions.len())?;
    for mention in mentions {
        ids.push(mention.id)?;
    }
    Ok(ids)
}

/// The place of an id among ids in ascending order.
pub(crate) fn place_of(ids: &[u64], id: u64) -> Option<usize>
    requires rises { IsStrictlyIncreasing ids.now }
    ensures { IsPlaceOf ids.now id result }
{
    if let Some(first) = ids.first() {
        // Where no number is left out, an id stands as far behind the first one as it is greater.
        let near = id.saturating_sub(*first) as usize;
        if near < ids.len() && ids[near] == id {
            return Some(near);
        }
    }
    match ids.binary_search(&id) {
        Ok(place) => Some(place),
        Err(_) => None,
    }
}

/// Marks an id.
pub(crate) fn take(ids: &[u64], id: u64, marks: &mut [bool]) -> Taken
    requires rises { IsStrictlyIncreasing ids.now }
    requires sized { length marks.old ≡ length ids.now }
    ensures taken { Takes ids.now id marks.old marks.new result }
{
    match place_of(ids, id) {
        None => Taken::Unknown,
        Some(place) => {
            if marks[place] {
                return Taken::Again;
            }
            marks[place] = true;
            Taken::New(place)
        }
    }
}

// Whether an id is marked.
fn is_marked(ids: &[u64], marks: &[bool], id: u64) -> bool
    requires rises { IsStrictlyIncreasing ids.now }
    requires sized { length marks.now ≡ length ids.now }
    ensures { result ≡ has ids.now marks.now id }
{
    match place_of(ids, id) {
        None => false,
        Some(place) => marks[place],
    }
}

// What is wrong with an id at a place, by what became of it: the first code is that of an unknown one.
fn fault_of(taken: Taken, at: u32, unknown: u16, again: u16) -> Option<Found>
    ensures { (known seen : Bool) → Tells taken known seen → IsLeastOf result (wrong unknown again known seen at) }
{
    match taken {
        Taken::Unknown => Some(Found { at, code: unknown }),
        Taken::Again => Some(Found { at, code: again }),
        Taken::New(_) => None,
    }
}

// The least fault of mentions: with the first code where an id is none of these, with the second where it was mentioned before.
fn least_wrong(
    alloc: Global,
    ids: &[u64],
    mentions: &[Mention],
    unknown: u16,
    again: u16,
) -> Result<Option<Found>, Memory>
    requires rises { IsStrictlyIncreasing ids.now }
    requires codes { unknown ≤ again }
    ensures least { IfOk result (λ found. IsLeastOf found
        (faults_at unknown (others ids.now mentions.now) ++ faults_at again (repeats mentions.now))) }
{
    let mut marks = vec![in alloc; false; ids.len()]?;
    let mut found = None;
    for mention in mentions {
        let taken = take(ids, mention.id, &mut marks);
        found = least(found, fault_of(taken, mention.at, unknown, again));
    }
    Ok(found)
}

/// The least fault of the ids in front of lines, which are these, and of those in lists.
pub(crate) fn least_id(
    alloc: Global,
    ids: &[u64],
    own: &[Mention],
    listed: &[Mention],
) -> Result<Option<Found>, Memory>
    requires rises { IsStrictlyIncreasing ids.now }
    requires same { HaveIds ids.now own.now }
    ensures { IfOk result (λ found. IsLeastOf found (id_faults_of own.now listed.now)) }
{
    let repeated = least_wrong(alloc, ids, own, REPEATED_ID, REPEATED_ID)?;
    let misused = least_wrong(alloc, ids, listed, UNKNOWN_ID, USED_TWICE)?;
    Ok(least(repeated, misused))
}

/// The least fault with this code at an id that isn't marked.
pub(crate) fn least_other(
    ids: &[u64],
    marks: &[bool],
    mentions: &[Mention],
    code: u16,
) -> Option<Found>
    requires rises { IsStrictlyIncreasing ids.now }
    requires sized { length marks.now ≡ length ids.now }
    ensures least { IsLeastOf result (faults_at code (others (chosen ids.now marks.now) mentions.now)) }
{
    let mut found = None;
    for mention in mentions {
        found = least_unless(found, is_marked(ids, marks, mention.id), mention.at, code);
    }
    found
}
