ghost use Rattle.std.specs.Prelude.{◌≡◌, ◌↔◌, IsTrue, None, IfOk, OnOk};
ghost use Rattle.plan_texts.specs.SoundlyCompiled.{IsSoundlyCompiled};
ghost use Rattle.ground_state.specs.Frames.{frame};
ghost use Rattle.step_reader.specs.Readings.{HasRoomIn};
ghost use Rattle.tree_decoder.specs.Acts as spec;

use crate::allowing::is_allowed;
use crate::meeting::is_met;
use decoding::Why;
use ground_state::{Env, Need, State};
use htn_base::{List, Memory};
use kept_front::{Front, WorkKind};
use plan_model::Compiled;
use problem_index::{PrintedName, World};
use std::alloc::Global;
use std::collections::BTreeSet;
use tree_core::Label;

/// What is noted of the step that is read: the cells that it names, where it is one of a stack, its new slots, its objects in
/// force, and the objects of what it processes.
pub(crate) struct Scratch {
    pub(crate) cells: Vec<u32>,
    pub(crate) new_slots: Vec<u32>,
    pub(crate) env: Env,
    pub(crate) task: Vec<u32>,
}

impl Drop for Scratch {
    fn drop(self) {
        let Scratch {
            cells: _,
            new_slots: _,
            env: _,
            task: _,
        } = self;
    }
}

impl Scratch {
    /// Nothing is noted; there is room for the objects of each step of the problem.
    pub(crate) fn new(alloc: Global, c: &Compiled) -> Result<Scratch, Memory>
        ensures room { IfOk result (λ scratch. HasRoomIn c.now (frame scratch.env)) }
    {
        let need = Need::of_compiled(c)?;
        let env = Env::new(alloc, &List::new(alloc), need.depth, need.arity)?;
        Ok(Scratch {
            cells: Vec::new(alloc),
            new_slots: Vec::new(alloc),
            env,
            task: Vec::new(alloc),
        })
    }

    /// What the act of this name processes; its objects are noted.
    fn work(&mut self, c: &Compiled, name: PrintedName) -> Result<WorkKind, Memory>
        ensures work { IfOk result (spec.IsWorkNoted c.now name self.new) }
        ensures noted { OnOk result (spec.StaysNoted self.old self.new) }
    {
        self.task.clear();
        match name {
            PrintedName::Action(action) => {
                self.task.extend_from_slice(self.env.objects())?;
                Ok(WorkKind::Action(action))
            }
            PrintedName::Check(method) => {
                self.task.extend_from_slice(self.env.objects())?;
                Ok(WorkKind::Check(method))
            }
            PrintedName::Method(method) => {
                let Some(plan) = c.methods.get(method as usize) else {
                    return Ok(WorkKind::Task(0));
                };
                for term in plan.schema.task_args.as_slice() {
                    let object = self.env.value(*term);
                    self.task.push(object)?;
                }
                Ok(WorkKind::Task(plan.schema.task))
            }
        }
    }

    /// The label of the act of this name.
    pub(crate) fn label(
        &self,
        alloc: Global,
        c: &Compiled,
        name: PrintedName,
    ) -> Result<Label, Memory>
        requires named { spec.IsNamedWith c.now name (frame self.now.env).objects }
        requires work { spec.HasWork c.now name self.now }
        ensures label { IfOk result (spec.IsLabelWith c.now name (frame self.now.env).objects) }
    {
        let objects = listed(alloc, self.env.objects())?;
        match name {
            PrintedName::Action(action) => Ok(Label::Primitive {
                action,
                args: objects,
            }),
            PrintedName::Check(method) => Ok(Label::Check {
                method,
                args: objects,
            }),
            PrintedName::Method(method) => {
                let task = match c.methods.get(method as usize) {
                    Some(plan) => plan.schema.task,
                    None => 0,
                };
                Ok(Label::Abstract {
                    task,
                    args: listed(alloc, self.task.as_slice())?,
                    method,
                    method_args: objects,
                })
            }
        }
    }
}

/// These objects as a list.
fn listed(alloc: Global, objects: &[u32]) -> Result<List<u32>, Memory>
    ensures { IfOk result (λ list. list ≡ objects.now) }
{
    let mut list = List::with_room(alloc, objects.len())?;
    for object in objects {
        list.push(*object)?;
    }
    Ok(list)
}

/// Why the act of this name at the slot can't be taken, by the first cause that is found.
pub(crate) fn obstacle(
    alloc: Global,
    c: &Compiled,
    world: &World<'_>,
    front: &Front,
    state: &State,
    name: PrintedName,
    slot: u32,
    scratch: &mut Scratch,
) -> Result<Option<Why>, Memory>
    requires soundly { IsSoundlyCompiled c.now }
    requires world { spec.IsWorldOf c.now world.now }
    requires room { HasRoomIn c.now (frame scratch.old.env) }
    requires some { spec.IsSomeStep c.now (spec.act_in c.now name slot scratch.old) }
    requires new { spec.AreNewNoted c.now name slot scratch.old }
    ensures obstacle { IfOk result (spec.IsObstacle c.now (spec.act_in c.now name slot scratch.old) front.now state.now) }
    ensures noted { OnOk result (spec.StaysNoted scratch.old scratch.new) }
    ensures work { IfOk result (λ found. found ≡ None → spec.HasWork c.now name scratch.new) }
{
    let Some(leaf) = front.leaf(slot) else {
        return Ok(Some(Why::SlotHolds));
    };
    let kind = scratch.work(c, name)?;
    if !front.holds(c, leaf, kind, scratch.task.as_slice()) {
        return Ok(Some(Why::SlotHolds));
    }
    if leaf.blocked > 0 {
        return Ok(Some(Why::Waiting));
    }
    if is_one_held(alloc, front, scratch.new_slots.as_slice())? {
        return Ok(Some(Why::SlotTaken));
    }
    if !is_met(c, world, name, &scratch.env) {
        return Ok(Some(Why::Constraint));
    }
    if !is_allowed(c, world, state, name, &mut scratch.env) {
        return Ok(Some(Why::Precondition));
    }
    Ok(None)
}

/// Whether one of the new slots holds an open leaf, or stands twice.
fn is_one_held(alloc: Global, front: &Front, new: &[u32]) -> Result<bool, Memory>
    ensures held { IfOk result (λ held. IsTrue held ↔ spec.IsOneHeld front.now new.now) }
{
    let mut seen = BTreeSet::new(alloc);
    for slot in new {
        if front.leaf(*slot).is_some() {
            return Ok(true);
        }
        if new.len() == 1 {
            return Ok(false);
        }
        if !seen.insert(*slot)? {
            return Ok(true);
        }
    }
    Ok(false)
}
