ghost use Rattle.std.specs.Prelude.{◌≡◌, ◌++◌, ◌*◌, ◌+◌, map, IfOk, OnOk};
ghost use Rattle.std.specs.List.{flat_map};
ghost use Rattle.plan_model.specs.task_networks.Spelling.{numbers};
ghost use Rattle.made_transport.specs.Made as spec;

use crate::parts::{node, package, task};
use hplan_text::{HLine, HNode};
use htn_base::{List, Memory};
use std::alloc::Global;

/// The ids of the tasks of the initial network, where those of the nodes begin at n.
pub(crate) fn root(alloc: Global, n: u32, k: u32) -> Result<List<u64>, Memory>
    ensures { IfOk result (λ ids. ids ≡ map (spec.deliver_id n) (numbers 0 k)) }
{
    let mut ids = List::with_room(alloc, k as usize)?;
    for j in 0..k {
        ids.push(deliver_id(n, j))?;
    }
    Ok(ids)
}

/// The nodes, five for each package but the first, which has four.
pub(crate) fn nodes(alloc: Global, n: u32, k: u32) -> Result<List<HNode>, Memory>
    ensures { IfOk result (λ nodes. nodes ≡ flat_map (spec.nodes_for n) (numbers 0 k)) }
{
    let mut nodes = List::with_room(alloc, 5 * k as usize)?;
    for j in 0..k {
        put_nodes(alloc, n, j, &mut nodes)?;
    }
    Ok(nodes)
}

// Puts the nodes of the package that is delivered behind j others.
fn put_nodes(alloc: Global, n: u32, j: u32, into: &mut List<HNode>) -> Result<(), Memory>
    ensures put { OnOk result (into.new ≡ into.old ++ spec.nodes_for n j) }
{
    into.put(delivers(alloc, n, j))?;
    put_back(alloc, n, j, into)?;
    put_on(alloc, n, j, into)
}

// Puts how the truck gets back to l0 for it, if it isn't the first.
fn put_back(alloc: Global, n: u32, j: u32, into: &mut List<HNode>) -> Result<(), Memory>
    ensures put { OnOk result (into.new ≡ into.old ++ spec.gets_back n j) }
{
    if j == 0 {
        return Ok(());
    }
    let id = n as u64 + 5 * j as u64;
    into.put(goes_there(alloc, id, b"l0", 4 * j as u64 - 1, id + 1))
}

// Puts that it is at l0, and how it gets on to l1.
fn put_on(alloc: Global, n: u32, j: u32, into: &mut List<HNode>) -> Result<(), Memory>
    ensures put { OnOk result (into.new ≡ into.old ++ spec.gets_on n j) }
{
    let id = n as u64 + 5 * j as u64;
    into.put(is_there(alloc, id + 1, b"l0"))?;
    into.put(goes_there(alloc, id + 2, b"l1", 4 * j as u64 + 1, id + 3))?;
    into.put(is_there(alloc, id + 3, b"l1"))
}

// The id of the task to deliver the package that is delivered behind j others.
fn deliver_id(n: u32, j: u32) -> u64
    ensures { result ≡ spec.deliver_id n j }
{
    if j == 0 {
        n as u64
    } else {
        n as u64 + 5 * j as u64 - 1
    }
}

// The id of its first task, to get to l0.
fn back_id(n: u32, j: u32) -> u64
    ensures { result ≡ spec.back_id n j }
{
    if j == 0 {
        n as u64 + 1
    } else {
        n as u64 + 5 * j as u64
    }
}

// The task to deliver a package.
fn delivers(alloc: Global, n: u32, j: u32) -> Result<HNode, Memory>
    ensures { IfOk result (λ node. node ≡ spec.delivers n j) }
{
    let package = package(alloc, j)?;
    let line = task(
        alloc,
        deliver_id(n, j),
        b"deliver",
        &[package.as_slice(), b"l1"],
    )?;
    let id = 4 * j as u64;
    let on = n as u64 + 5 * j as u64 + 2;
    node(alloc, line, b"m-deliver", &[back_id(n, j), id, on, id + 2])
}

// The truck is at a place.
fn is_there(alloc: Global, id: u64, place: &[u8]) -> Result<HNode, Memory>
    ensures { IfOk result (λ node. node ≡ spec.is_there id place.now) }
{
    node(alloc, get_to(alloc, id, place)?, b"m-there", &[])
}

// The truck is at a place once it has made a drive.
fn goes_there(
    alloc: Global,
    id: u64,
    place: &[u8],
    driven: u64,
    there: u64,
) -> Result<HNode, Memory>
    ensures { IfOk result (λ node. node ≡ spec.goes_there id place.now driven there) }
{
    node(alloc, get_to(alloc, id, place)?, b"m-via", &[driven, there])
}

// The task to get the truck to a place.
fn get_to(alloc: Global, id: u64, place: &[u8]) -> Result<HLine, Memory>
    ensures { IfOk result (λ line. line ≡ spec.get_to id place.now) }
{
    task(alloc, id, b"get-to", &[b"v1", place])
}
