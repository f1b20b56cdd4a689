ghost use Rattle.std.specs.Prelude.{◌≡◌, ◌≤◌, ◌↔◌, IsTrue, [], length, IfOk, IfErr};
ghost use Rattle.htn_base.specs.Limits.{most_slots, most_steps};
ghost use Rattle.plan_texts.specs.SoundlyCompiled.{IsSoundlyCompiled};
ghost use Rattle.ground_state.specs.Runs.{words_step};
ghost use Rattle.plan_model.specs.plan_meaning.Network.{network};
ghost use Rattle.stack_machine.specs.Stack.{IsTotal};
ghost use Rattle.tree_decoder.specs.AtTip as tip;
ghost use Rattle.tree_decoder.specs.Decoding as spec;
ghost use Rattle.tree_decoder.specs.Taking.{IsRead, TakesAct};

use crate::decoded::{DecodeError, Decoded};
use crate::taking::{apply, grow_by};
use crate::testing::{Scratch, obstacle};
use decoding::Why;
use ground_state::{State, is_true};
use htn_base::{List, Memory};
use kept_front::{Front, Later};
use plan_model::{Compiled, GroundAction};
use problem_index::{PrintedIndex, PrintedName};
use std::alloc::Global;
use step_reader::{Read, StackRead, read, read_at_cells};
use tree_core::{Growth, grow};

/// A decoder of steps over a compiled problem with so many slots: what is kept of the front that the steps taken spell, and the
/// state behind them.
pub struct Decoder<'c> {
    c: &'c Compiled,
    slots: u32,
    printed: PrintedIndex,
    later: List<Later>,
    front: Front,
    state: State,
    scratch: Scratch,
}

impl Drop for Decoder<'_> {
    fn drop(self) {
        let Decoder {
            c: _,
            slots: _,
            printed: _,
            later: _,
            front: _,
            state: _,
            scratch: _,
        } = self;
    }
}

impl<'c> Decoder<'c> {
    /// A decoder that has taken no step yet, with so many slots.
    pub fn new(alloc: Global, c: &'c Compiled, slots: u32) -> Result<Decoder<'c>, Memory>
        requires soundly { IsSoundlyCompiled c.now }
        requires some { 1 ≤ slots }
        requires few { slots ≤ most_slots }
        ensures fresh { IfOk result (spec.HasTaken c.now slots []) }
        ensures fresh_stack { IfOk result (tip.HasTakenAtTip c.now slots []) }
    {
        let printed = PrintedIndex::new(alloc, c)?;
        let later = Later::all(alloc, c)?;
        let front = Front::new(alloc, slots)?;
        let state = State::new(alloc, &c.hddl.init)?;
        let scratch = Scratch::new(alloc, c)?;
        Ok(Decoder {
            c,
            slots,
            printed,
            later,
            front,
            state,
            scratch,
        })
    }

    /// Takes the step of these words, or says the first cause for which it can't be taken. After `Memory` the decoder is of no
    /// use; more than 1,000,000 steps want memory.
    pub fn take(
        &mut self,
        alloc: Global,
        name: &[u8],
        args: &[&[u8]],
    ) -> Result<Option<Why>, Memory>
        requires ready { spec.IsReady self.old }
        ensures taken { IfOk result (spec.Takes (words_step name.now args.now) self.old self.new) }
    {
        let world = self
            .printed
            .index()
            .world(&self.c.hddl.types, &self.c.hddl.objects);
        let found = read(
            &self.printed,
            &world,
            self.c,
            self.slots,
            name,
            args,
            &mut self.scratch.new_slots,
            &mut self.scratch.env,
        )?;
        match found {
            Read::Unnamed => Ok(Some(Why::UnknownAction)),
            Read::Unread => Ok(Some(Why::Arguments)),
            Read::Act { name, slot } => self.take_act(alloc, name, slot),
        }
    }

    /// Takes the step of a stack of these words, where the methods are totally ordered: the slots are its cells, and the tip is the
    /// one task that waits for none. Else it says the first cause for which it can't be taken. After `Memory` the decoder is of no
    /// use; more than 1,000,000 steps want memory.
    pub fn take_at_tip(
        &mut self,
        alloc: Global,
        name: &[u8],
        args: &[&[u8]],
    ) -> Result<Option<Why>, Memory>
        requires ready { spec.IsReady self.old }
        requires total { IsTotal (network self.old.c.now) }
        ensures taken { IfOk result (tip.TakesAtTip (words_step name.now args.now) self.old self.new) }
    {
        let world = self
            .printed
            .index()
            .world(&self.c.hddl.types, &self.c.hddl.objects);
        let found = read_at_cells(
            &self.printed,
            &world,
            self.c,
            self.slots,
            name,
            args,
            &mut self.scratch.cells,
            &mut self.scratch.new_slots,
            &mut self.scratch.env,
        )?;
        match found {
            StackRead::Unnamed => Ok(Some(Why::UnknownAction)),
            StackRead::Unread => Ok(Some(Why::Arguments)),
            StackRead::Apart => Ok(Some(Why::SlotHolds)),
            StackRead::Act { name, cell } => Ok(at_tip(self.take_act(alloc, name, cell)?)),
        }
    }

    /// The same as `take`, of a ground action. `words`: room for where its arguments stand.
    pub(crate) fn take_action<'s>(
        &mut self,
        alloc: Global,
        step: &'s GroundAction,
        words: &mut Vec<&'s [u8]>,
    ) -> Result<Option<Why>, Memory>
        requires ready { spec.IsReady self.old }
        ensures taken { IfOk result (spec.Takes step.now self.old self.new) }
    {
        words.clear();
        for word in step.args.as_slice() {
            words.push(word.as_slice())?;
        }
        self.take(alloc, step.name.as_slice(), words.as_slice())
    }

    /// Takes the act of this name at the slot, whose new slots and objects are noted, or says the first cause for which it can't be
    /// taken.
    fn take_act(
        &mut self,
        alloc: Global,
        name: PrintedName,
        slot: u32,
    ) -> Result<Option<Why>, Memory>
        requires ready { spec.IsReady self.old }
        requires read { IsRead name slot self.old }
        ensures taken { IfOk result (TakesAct name slot self.old self.new) }
    {
        let world = self
            .printed
            .index()
            .world(&self.c.hddl.types, &self.c.hddl.objects);
        if let Some(why) = obstacle(
            alloc,
            self.c,
            &world,
            &self.front,
            &self.state,
            name,
            slot,
            &mut self.scratch,
        )? {
            return Ok(Some(why));
        }
        grow_by(
            alloc,
            self.c,
            self.later.as_slice(),
            &mut self.front,
            name,
            slot,
            &self.scratch,
        )?;
        apply(
            alloc,
            self.c,
            &world,
            &mut self.state,
            name,
            &mut self.scratch.env,
        )?;
        Ok(None)
    }

    /// The tree of the steps taken, with their schedule and slots, where they spell a solution; else what is left.
    pub fn finish(mut self, alloc: Global) -> Result<Decoded, DecodeError>
        requires ready { spec.IsReady self }
        ensures decoded { IfOk result (spec.Finishes self.entry) }
        ensures refused { IfErr result (spec.Leaves self.entry) }
        ensures decoded_stack { IfOk result (tip.FinishesAtTip self.entry) }
        ensures refused_stack { IfErr result (tip.LeavesAtTip self.entry) }
    {
        let step = self.front.growths().len() as u32 + 1;
        if let Some(why) = self.left() {
            drop(self);
            return Err(DecodeError::NotAPlan { step, why });
        }
        Ok(decoded(alloc, self.into_front())?)
    }

    /// What is left at the end of the steps taken, if anything.
    fn left(&mut self) -> Option<Why>
        requires ready { spec.IsReady self.old }
        ensures left { spec.IsLeft self.old result }
        ensures kept { self.new.front ≡ self.old.front }
    {
        if holds_some(&self.front, self.slots) {
            return Some(Why::Unfinished);
        }
        self.scratch.env.clear();
        let world = self
            .printed
            .index()
            .world(&self.c.hddl.types, &self.c.hddl.objects);
        if is_true(
            &self.c.hddl.goal,
            &mut self.scratch.env,
            &self.state,
            &world,
        ) {
            return None;
        }
        Some(Why::GoalFalse)
    }

    /// What is kept of the front alone.
    fn into_front(self) -> Front
        ensures { result ≡ self.entry.front }
    {
        let Decoder {
            c: _,
            slots: _,
            printed,
            later,
            front,
            state,
            scratch,
        } = self;
        drop(printed);
        drop(later);
        drop(state);
        drop(scratch);
        front
    }
}

/// The cause of a stack: a task that waits is none that its tip holds.
fn at_tip(found: Option<Why>) -> Option<Why>
    ensures { result ≡ tip.at_tip found }
{
    match found {
        Some(Why::Waiting) => Some(Why::SlotHolds),
        other => other,
    }
}

/// Whether one of so many slots holds an open leaf.
fn holds_some(front: &Front, slots: u32) -> bool
    requires few { slots ≤ most_slots }
    ensures { IsTrue result ↔ spec.IsSomeHeld slots front.now }
{
    for slot in 1..slots + 1 {
        if front.leaf(slot).is_some() {
            return true;
        }
    }
    false
}

/// The tree of a front's growths, with their slots.
fn decoded(alloc: Global, front: Front) -> Result<Decoded, Memory>
    requires few { length front.growths ≤ most_steps }
    ensures decoded { IfOk result (spec.HasTree front) }
{
    match slots_of(alloc, &front) {
        Ok(slots) => match grow(alloc, front.into_growths()) {
            Ok(run) => Ok(Decoded { run, slots }),
            Err(_) => {
                drop(slots);
                Err(Memory)
            }
        },
        Err(memory) => {
            drop(front);
            Err(memory)
        }
    }
}

/// The slots of the growths: the root has slot 1.
fn slots_of(alloc: Global, front: &Front) -> Result<List<u32>, Memory>
    ensures slots { IfOk result (spec.AreSlots front.now) }
{
    let mut slots = List::with_room(alloc, front.growths().len())?;
    for growth in front.growths() {
        slots.push(slot_of(front, growth))?;
    }
    Ok(slots)
}

/// The slot of a growth.
fn slot_of(front: &Front, growth: &Growth) -> u32
    ensures { result ≡ spec.slot_under front.now growth.now.parent growth.now.child }
{
    match growth.parent {
        Some(parent) => front.child_slot(parent, growth.child),
        None => 1,
    }
}
