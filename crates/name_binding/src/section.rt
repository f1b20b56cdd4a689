ghost use Rattle.std.specs.Prelude.{◌≡◌, ◌<◌, MatchOption, IfOk, OnOk};
ghost use Rattle.htn_base.specs.Limits.{most_subtasks};
ghost use Rattle.name_binding.specs.Spots.{noted};
ghost use Rattle.name_binding.specs.Cycle.{IsSection, IsSectionFault};
ghost use Rattle.name_binding.specs.Mentions.{AreInTextOrder, AreTypesOf, types_in_order};
ghost use Rattle.name_binding.specs.PairsAmong.{if_at};
ghost use Rattle.name_binding.specs.TooMany.{NotesLeast, NoneIsOfType, IsFirstOfType};

use crate::cycle::cycle_among;
use crate::faults::Faults;
use crate::places::Places;
use gd_reader::{RawParams, RawTerm};
use htn_base::{Memory, Name};
use std::alloc::Global;

/// `object`, and the types of a section of types in the order in which the text first names them, be it as a parent alone. The
/// first word of the type that is one more than `most` other than `object` is a fault of code 22. The child of the first pair that
/// closes a cycle with the earlier ones is one of code 12; `object` with a parent always is.
pub fn section_of(
    alloc: Global,
    object: Name,
    most: u32,
    listed: &RawParams,
    faults: &mut Faults,
) -> Result<Places, Memory>
    requires few { most < most_subtasks }
    requires section { IsSection listed.now }
    ensures types { IfOk result (AreTypesOf object.number listed.now) }
    ensures faults { OnOk result (NotesLeast (IsSectionFault most object.number listed.now)
        faults.old.least faults.new.least) }
{
    let words = words_in_order(alloc, listed)?;
    let types = declared(alloc, object, words.as_slice())?;
    let limit = first_of_type(&types, most + 1, words.as_slice());
    let cycle = cycle_among(alloc, &types, most + 2, listed)?;
    note_if(limit, 22, faults);
    note_if(cycle, 12, faults);
    Ok(types)
}

/// Notes the fault at this place, if there is one.
fn note_if(at: Option<u32>, code: u16, faults: &mut Faults)
    ensures noted { faults.new.least ≡ noted faults.old.least (if_at code at) }
{
    if let Some(at) = at {
        faults.note(at, code);
    }
}

/// The words of a section of types in the order of the text.
fn words_in_order(alloc: Global, listed: &RawParams) -> Result<Vec<RawTerm>, Memory>
    ensures words { IfOk result (λ words. AreInTextOrder listed.now words.items) }
{
    let mut words = Vec::new(alloc);
    for item in listed.as_slice() {
        words.push(RawTerm {
            name: item.name,
            variable: false,
            at: item.at,
        })?;
        words.extend_from_slice(item.ty.as_slice())?;
    }
    words.sort_by_key(|word| word.at)?;
    Ok(words)
}

/// `object`, and the others as these words first name them.
fn declared(alloc: Global, object: Name, words: &[RawTerm]) -> Result<Places, Memory>
    ensures types { IfOk result (λ types. types ≡ types_in_order object.number words.now) }
{
    let mut types = Places::new(alloc);
    types.declare(object)?;
    for word in words {
        if types.get(word.name).is_none() {
            types.declare(word.name)?;
        }
    }
    Ok(types)
}

/// The offset of the first word that has this place among the types.
fn first_of_type(types: &Places, place: u32, words: &[RawTerm]) -> Option<u32>
    ensures first { MatchOption result (NoneIsOfType types.now place words.now)
        (IsFirstOfType types.now place words.now) }
{
    for word in words {
        if let Some(found) = types.get(word.name) {
            if found == place {
                return Some(word.at);
            }
        }
    }
    None
}
