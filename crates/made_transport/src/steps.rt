ghost use Rattle.std.specs.Prelude.{◌≡◌, ◌++◌, ◌*◌, ◌+◌, IfOk, OnOk};
ghost use Rattle.std.specs.List.{flat_map};
ghost use Rattle.plan_model.specs.task_networks.Spelling.{numbers};
ghost use Rattle.made_transport.specs.Made as spec;

use crate::parts::{package, task};
use hplan_text::HLine;
use htn_base::{List, Memory};
use std::alloc::Global;

/// The primitives, four for each package but the first, which has three.
pub(crate) fn primitives(alloc: Global, k: u32) -> Result<List<HLine>, Memory>
    ensures { IfOk result (λ lines. lines ≡ flat_map spec.primitives_for (numbers 0 k)) }
{
    let mut lines = List::with_room(alloc, 4 * k as usize)?;
    for j in 0..k {
        put_primitives(alloc, j, &mut lines)?;
    }
    Ok(lines)
}

// Puts the primitives of the package that is delivered behind j others.
fn put_primitives(alloc: Global, j: u32, into: &mut List<HLine>) -> Result<(), Memory>
    ensures put { OnOk result (into.new ≡ into.old ++ spec.primitives_for j) }
{
    let package = package(alloc, j)?;
    let id = 4 * j as u64;
    put_back(alloc, j, into)?;
    into.put(task(alloc, id, b"pick-up", &[b"v1", b"l0", package.as_slice()]))?;
    into.put(drive(alloc, id + 1, b"l0", b"l1"))?;
    into.put(task(alloc, id + 2, b"drop", &[b"v1", b"l1", package.as_slice()]))
}

// Puts the drive back to l0 for it, if it isn't the first.
fn put_back(alloc: Global, j: u32, into: &mut List<HLine>) -> Result<(), Memory>
    ensures put { OnOk result (into.new ≡ into.old ++ spec.drives_back j) }
{
    if j == 0 {
        return Ok(());
    }
    into.put(drive(alloc, 4 * j as u64 - 1, b"l1", b"l0"))
}

// A drive of the truck.
fn drive(alloc: Global, id: u64, from: &[u8], to: &[u8]) -> Result<HLine, Memory>
    ensures { IfOk result (λ line. line ≡ spec.drive id from.now to.now) }
{
    task(alloc, id, b"drive", &[b"v1", from, to])
}
