ghost use Rattle.std.specs.Prelude.{ℕ, ◌≡◌, ◌+◌, ◌<◌, ◌≤◌, ◌++◌, [], ◌∷◌, true, false, Some, length, drop, map, slice_get, IfOk, OnOk};
ghost use Rattle.tree_core.specs.Runs.{label_in, end_in};
ghost use Rattle.hplan_text.specs.ShownLaws.{EachIsShownOnce, IsShown, ShownPlansAreSound, ShownPlansAreReadBack};
ghost use Rattle.hplan_text.specs.ShownPlan.{source_word, object_name};
ghost use Rattle.hplan_text.specs.Showing.{is_primitive_label, is_check_label, is_lower_place, label_name, label_args, label_line, label_method, primitives_among, lower_among, HaveNumbers, ListsChildren, lines_at, IsNodeAt, AreNodesAt};

use crate::values::{HLine, HNode, HPlan};
use htn_base::{List, Memory, Name, Text};
use plan_model::Compiled;
use std::alloc::Global;
use tree_core::{Label, Scheduled, Tree};

/// A finished tree with its order shows exactly one hierarchical plan.
pub fn each_tree_shows_one_plan(compiled: &Compiled)
    ensures { EachIsShownOnce compiled.now }
{}

/// The plan that is shown can be printed and is sound, where the run stands for a finished tree, and for its schedule, of what is
/// compiled of a sound problem. Then its text has no fault, and spells this plan alone.
pub fn shown_plans_are_read_back(compiled: &Compiled, run: &Scheduled)
    ensures sound { ShownPlansAreSound compiled.now run.now }
    ensures back { ShownPlansAreReadBack compiled.now run.now }
{
    // Each id is below the number of nodes, which has 32 bits.
    let _ = run.tree.size();
}

/// The plan that a finished tree of the compiled problem and its order show: the primitives are numbered in the order, then
/// the abstract nodes but the root. Checks and the arguments of methods are left out, and names are the source's, in lower
/// case.
pub fn show(alloc: Global, c: &Compiled, run: &Scheduled) -> Result<HPlan, Memory>
    ensures shown { IfOk result (IsShown c.now run.now) }
{
    let mut places = Vec::new(alloc);
    put_primitives(&run.tree, run.order.as_slice(), &mut places)?;
    let first = places.len();
    let primitives = lines(alloc, c, &run.tree, places.as_slice())?;
    put_lower(&run.tree, run.order.as_slice(), &mut places)?;
    let ids = ids_of(alloc, run.tree.size() as usize, places.as_slice())?;
    let nodes = nodes(
        alloc,
        c,
        &run.tree,
        ids.as_slice(),
        places.as_slice(),
        first,
    )?;
    let root = child_ids(alloc, &run.tree, ids.as_slice(), 0)?;
    Ok(HPlan {
        primitives,
        root,
        nodes,
    })
}

fn is_primitive(tree: &Tree, place: u32) -> bool
    ensures { result ≡ is_primitive_label (label_in tree.now place) }
{
    match tree.label(place) {
        Some(Label::Primitive { action: _, args: _ }) => true,
        _ => false,
    }
}

fn is_check(tree: &Tree, place: u32) -> bool
    ensures { result ≡ is_check_label (label_in tree.now place) }
{
    match tree.label(place) {
        Some(Label::Check { method: _, args: _ }) => true,
        _ => false,
    }
}

// Whether an abstract node other than the root stands at the place.
fn is_lower(tree: &Tree, place: u32) -> bool
    ensures { result ≡ is_lower_place place (label_in tree.now place) }
{
    match tree.label(place) {
        Some(
            Label::Abstract {
                task: _,
                args: _,
                method: _,
                method_args: _,
            },
        ) => place > 0,
        _ => false,
    }
}

// Puts the addresses of the primitives, in the order.
fn put_primitives(tree: &Tree, order: &[u32], places: &mut Vec<u32>) -> Result<(), Memory>
    ensures put { OnOk result (places.new.items ≡ places.old.items ++ primitives_among tree.now order.now) }
{
    for place in order {
        if is_primitive(tree, *place) {
            places.push(*place)?;
        }
    }
    Ok(())
}

// Puts the addresses of the abstract nodes but the root, in the order.
fn put_lower(tree: &Tree, order: &[u32], places: &mut Vec<u32>) -> Result<(), Memory>
    ensures put { OnOk result (places.new.items ≡ places.old.items ++ lower_among tree.now order.now) }
{
    for place in order {
        if is_lower(tree, *place) {
            places.push(*place)?;
        }
    }
    Ok(())
}

// The number of each place, by address.
fn ids_of(alloc: Global, size: usize, places: &[u32]) -> Result<Vec<u64>, Memory>
    ensures numbers { IfOk result (λ ids. HaveNumbers size (length places.now) places.now ids.items) }
{
    let mut ids = vec![in alloc; 0_u64; size]?;
    for (id, place) in places.iter().enumerate() {
        if (*place as usize) < size {
            ids[*place as usize] = id as u64;
        }
    }
    Ok(ids)
}

// The word of a name.
fn word(alloc: Global, c: &Compiled, name: Name) -> Result<Text, Memory>
    ensures { IfOk result (λ text. text ≡ source_word c.now name.number) }
{
    match c.hddl.names.text(name) {
        Some(word) => Text::from_slice(alloc, word),
        None => Ok(Text::new(alloc)),
    }
}

// The word of an object.
fn object(alloc: Global, c: &Compiled, object: u32) -> Result<Text, Memory>
    ensures { IfOk result (λ text. text ≡ object_name c.now object) }
{
    match c.hddl.objects.get(object as usize) {
        Some(object) => word(alloc, c, object.name),
        None => Ok(Text::new(alloc)),
    }
}

// The words of objects.
fn words(alloc: Global, c: &Compiled, objects: &[u32]) -> Result<List<Text>, Memory>
    ensures { IfOk result (λ words. words ≡ map (object_name c.now) objects.now) }
{
    let mut words = List::with_room(alloc, objects.len())?;
    for number in objects {
        words.put(object(alloc, c, *number))?;
    }
    Ok(words)
}

// The name of the action or the task at a node.
fn task_name(alloc: Global, c: &Compiled, tree: &Tree, place: u32) -> Result<Text, Memory>
    ensures { IfOk result (λ name. name ≡ label_name c.now (label_in tree.now place)) }
{
    match tree.label(place) {
        Some(Label::Primitive { action, args: _ }) => {
            match c.hddl.actions.get(*action as usize) {
                Some(action) => word(alloc, c, action.name),
                None => Ok(Text::new(alloc)),
            }
        }
        Some(
            Label::Abstract {
                task,
                args: _,
                method: _,
                method_args: _,
            },
        ) => match c.hddl.tasks.get(*task as usize) {
            Some(task) => word(alloc, c, task.name),
            None => Ok(Text::new(alloc)),
        },
        _ => Ok(Text::new(alloc)),
    }
}

// The objects of the task at a node.
fn args(tree: &Tree, place: u32) -> &[u32]
    ensures { result.now ≡ label_args (label_in tree.now place) }
{
    match tree.label(place) {
        Some(Label::Primitive { action: _, args }) => args.as_slice(),
        Some(Label::Check { method: _, args }) => args.as_slice(),
        Some(
            Label::Abstract {
                task: _,
                args,
                method: _,
                method_args: _,
            },
        ) => args.as_slice(),
        None => &[],
    }
}

// The line of the task at a node.
fn line(alloc: Global, c: &Compiled, tree: &Tree, place: u32, id: u64) -> Result<HLine, Memory>
    ensures { IfOk result (λ line. line ≡ label_line c.now (label_in tree.now place) id) }
{
    let args = words(alloc, c, args(tree, place))?;
    Ok(HLine {
        id,
        name: task_name(alloc, c, tree, place)?,
        args,
    })
}

// The lines of the tasks at these places.
fn lines(alloc: Global, c: &Compiled, tree: &Tree, places: &[u32]) -> Result<List<HLine>, Memory>
    ensures { IfOk result (λ lines. lines ≡ lines_at c.now tree.now 0 places.now) }
{
    let mut lines = List::with_room(alloc, places.len())?;
    for id in 0..places.len() {
        lines.put(line(alloc, c, tree, places[id], id as u64))?;
    }
    Ok(lines)
}

// The ids of the children of the node at a place, but for checks.
fn child_ids(alloc: Global, tree: &Tree, ids: &[u64], place: u32) -> Result<List<u64>, Memory>
    ensures { IfOk result (ListsChildren tree.now ids.now place) }
{
    let mut list = List::new(alloc);
    let end = tree.end(place).unwrap_or(0);
    let mut at = first_below(place, end);
    while at < end {
        put_child(tree, ids, at, &mut list)?;
        at = after(tree, at, end);
    }
    Ok(list)
}

// The address at which the first node below a place stands, or the end where there is none.
fn first_below(place: u32, end: u32) -> u32
    ensures { place < end → result ≡ place + 1 }
{
    if place < end { place + 1 } else { end }
}

// The address after the subtree of a node, or the end where it isn't later.
fn after(tree: &Tree, at: u32, end: u32) -> u32
    ensures later { at < end → at < result }
    ensures after { (e : ℕ) → end_in tree.now at ≡ Some e → at < e → result ≡ e }
{
    match tree.end(at) {
        Some(next) => { if next > at { next } else { end } }
        None => end,
    }
}

// Puts the number of the node at an address, if it isn't a check.
fn put_child(tree: &Tree, ids: &[u64], at: u32, list: &mut List<u64>) -> Result<(), Memory>
    ensures none { OnOk result (is_check_label (label_in tree.now at) ≡ true → list.new ≡ list.old) }
    ensures put { OnOk result (is_check_label (label_in tree.now at) ≡ false
        → (n : ℕ) → slice_get ids.now at ≡ Some n → list.new ≡ list.old ++ n ∷ []) }
{
    if is_check(tree, at) {
        return Ok(());
    }
    match ids.get(at as usize) {
        Some(id) => list.push(*id),
        None => Ok(()),
    }
}

// The name of the method that decomposes the task at a node.
fn method_name(alloc: Global, c: &Compiled, tree: &Tree, place: u32) -> Result<Text, Memory>
    ensures { IfOk result (λ name. name ≡ label_method c.now (label_in tree.now place)) }
{
    match tree.label(place) {
        Some(
            Label::Abstract {
                task: _,
                args: _,
                method,
                method_args: _,
            },
        ) => match c.methods.get(*method as usize) {
            Some(plan) => word(alloc, c, plan.schema.name),
            None => Ok(Text::new(alloc)),
        },
        _ => Ok(Text::new(alloc)),
    }
}

// The line of the abstract node at a place.
fn node(
    alloc: Global,
    c: &Compiled,
    tree: &Tree,
    ids: &[u64],
    place: u32,
    id: u64,
) -> Result<HNode, Memory>
    ensures { IfOk result (IsNodeAt c.now tree.now ids.now id place) }
{
    let ids = child_ids(alloc, tree, ids, place)?;
    let method = method_name(alloc, c, tree, place)?;
    Ok(HNode {
        line: line(alloc, c, tree, place, id)?,
        method,
        ids,
    })
}

// The lines of the abstract nodes, which have the numbers from the first on.
fn nodes(
    alloc: Global,
    c: &Compiled,
    tree: &Tree,
    ids: &[u64],
    places: &[u32],
    first: usize,
) -> Result<List<HNode>, Memory>
    requires first { first ≤ length places.now }
    ensures { IfOk result (AreNodesAt c.now tree.now ids.now first (drop first places.now)) }
{
    let mut nodes = List::new(alloc);
    for id in first..places.len() {
        nodes.put(node(alloc, c, tree, ids, places[id], id as u64))?;
    }
    Ok(nodes)
}
