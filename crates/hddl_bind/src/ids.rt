ghost use Rattle.std.specs.Prelude.{◌≡◌, [], IfOk, OnOk};
ghost use Rattle.name_binding.specs.Spots.{noted};
ghost use Rattle.hddl_bind.specs.Ids as spec;

use crate::seconds::declare;
use hddl_reader::RawSub;
use htn_base::{List, Memory, Name, number};
use name_binding::{Faults, Places};
use std::alloc::Global;

/// Declares the ids of subtasks in the empty table, and gives the number of the subtask of each. Of an id that stands in front
/// already the fault is noted.
pub(crate) fn ids_of(
    alloc: Global,
    ids: &mut Places,
    subs: &[RawSub],
    faults: &mut Faults,
) -> Result<List<u32>, Memory>
    requires empty { ids.old ≡ [] }
    ensures ids { IfOk result (λ places. spec.AreIds subs.now ids.new places) }
    ensures faults { OnOk result
        (faults.new.least ≡ noted faults.old.least (spec.second_ids subs.now)) }
{
    let mut places = List::new(alloc);
    for (k, sub) in subs.iter().enumerate() {
        if let Some(id) = sub.id {
            declare(ids, id.name, id.at, faults)?;
            places.push(number(k)?)?;
        }
    }
    Ok(places)
}

/// The number of the first subtask with this id.
pub(crate) fn subtask_of(ids: &Places, places: &[u32], name: Name) -> Option<u32>
    ensures first { result ≡ spec.subtask_at ids.now places.now name.number }
{
    let place = ids.get(name)?;
    places.get(place as usize).copied()
}
