ghost use Rattle.std.specs.Prelude.{OnOk};
ghost use Rattle.plan_model.specs.Parts.{AreListed};
ghost use Rattle.hddl_prune.specs.Search as spec;

use crate::live::Live;
use crate::reach::Reach;
use crate::waiting::{Mark, Waiter, Waiting};
use htn_base::{List, Memory, number};
use plan_model::{Effect, Hddl};
use std::alloc::Global;

/// Finds live parts. Each action and method is tried again only where something is marked for which it waits.
pub(crate) fn spread(alloc: Global, h: &Hddl, live: &mut Live) -> Result<(), Memory>
    requires listed { AreListed h.now.types }
    ensures sound { OnOk result (spec.StaysFound h.now live.old live.new) }
{
    let mut waiting = Waiting::new(alloc, h)?;
    let spread = spread_by(alloc, h, live, &mut waiting);
    drop(waiting);
    spread
}

fn spread_by(alloc: Global, h: &Hddl, live: &mut Live, waiting: &mut Waiting) -> Result<(), Memory>
    requires listed { AreListed h.now.types }
    ensures sound { OnOk result (spec.StaysFound h.now live.old live.new) }
{
    waiting.put_all(h)?;
    try_actions(h, live, waiting)?;
    try_methods(h, live, waiting)?;
    for _ in 0..u64::MAX {
        let Some(mark) = waiting.next() else {
            break;
        };
        let waiters = waiting.take(alloc, mark);
        let tried = try_waiters(h, live, mark, waiters.as_slice(), waiting);
        drop(waiters);
        tried?;
    }
    Ok(())
}

/// Tries each action once.
fn try_actions(h: &Hddl, live: &mut Live, waiting: &mut Waiting) -> Result<(), Memory>
    requires listed { AreListed h.now.types }
    ensures sound { OnOk result (spec.StaysFound h.now live.old live.new) }
{
    for n in 0..number(h.actions.len())? {
        try_waiter(h, live, Waiter::Action(n), waiting)?;
    }
    Ok(())
}

/// Tries each method once.
fn try_methods(h: &Hddl, live: &mut Live, waiting: &mut Waiting) -> Result<(), Memory>
    requires listed { AreListed h.now.types }
    ensures sound { OnOk result (spec.StaysFound h.now live.old live.new) }
{
    for n in 0..number(h.methods.len())? {
        try_waiter(h, live, Waiter::Method(n), waiting)?;
    }
    Ok(())
}

/// Tries what waited for the mark.
fn try_waiters(
    h: &Hddl,
    live: &mut Live,
    mark: Mark,
    waiters: &[Waiter],
    waiting: &mut Waiting,
) -> Result<(), Memory>
    requires listed { AreListed h.now.types }
    ensures sound { OnOk result (spec.StaysFound h.now live.old live.new) }
{
    for waiter in waiters {
        if waiting.is_due(mark, *waiter) {
            try_waiter(h, live, *waiter, waiting)?;
        }
    }
    Ok(())
}

/// Tries an action or a method. What is marked by it is to be looked at.
fn try_waiter(
    h: &Hddl,
    live: &mut Live,
    waiter: Waiter,
    waiting: &mut Waiting,
) -> Result<(), Memory>
    requires listed { AreListed h.now.types }
    ensures sound { OnOk result (spec.StaysFound h.now live.old live.new) }
{
    let found = match waiter {
        Waiter::Action(n) => live.try_action(h, n)?,
        Waiter::Method(n) => live.try_method(h, n)?,
    };
    if found {
        return set_marks(h, waiter, waiting);
    }
    Ok(())
}

fn set_marks(h: &Hddl, waiter: Waiter, waiting: &mut Waiting) -> Result<(), Memory> {
    match waiter {
        Waiter::Action(n) => {
            if let Some(action) = h.actions.get(n as usize) {
                waiting.set(Mark::Action(n))?;
                set_added(&action.eff, waiting)?;
            }
            Ok(())
        }
        Waiter::Method(n) => match h.methods.get(n as usize) {
            Some(method) => waiting.set(Mark::Task(method.task)),
            None => Ok(()),
        },
    }
}

/// The predicates of which the effect adds an atom are marked.
#[cycle(set_added)]
fn set_added(effect: &Effect, waiting: &mut Waiting) -> Result<(), Memory> {
    match effect {
        Effect::Add(atom) => waiting.set(Mark::Predicate(atom.predicate)),
        Effect::Delete(_) => Ok(()),
        Effect::And(parts) => set_all_added(parts, waiting),
        Effect::Forall(_, body) => set_added(body.get(), waiting),
        Effect::When(_, body) => set_added(body.get(), waiting),
    }
}

#[cycle(set_added)]
fn set_all_added(effects: &List<Effect>, waiting: &mut Waiting) -> Result<(), Memory> {
    let parts = effects.as_slice();
    for part in parts {
        set_added(part, waiting)?;
    }
    Ok(())
}

/// Opens methods. Each is tried only where its task is marked.
pub(crate) fn open(alloc: Global, h: &Hddl, live: &Live, reach: &mut Reach) -> Result<(), Memory>
    ensures sound { OnOk result (spec.StaysOpened h.now (spec.parts_of live.now) reach.old reach.new) }
{
    let mut waiting = Waiting::new(alloc, h)?;
    let opened = open_by(alloc, h, live, reach, &mut waiting);
    drop(waiting);
    opened
}

fn open_by(
    alloc: Global,
    h: &Hddl,
    live: &Live,
    reach: &mut Reach,
    waiting: &mut Waiting,
) -> Result<(), Memory>
    ensures sound { OnOk result (spec.StaysOpened h.now (spec.parts_of live.now) reach.old reach.new) }
{
    waiting.put_by_task(h)?;
    waiting.set_tasks(h.top.children.as_slice())?;
    for _ in 0..u64::MAX {
        let Some(mark) = waiting.next() else {
            break;
        };
        let waiters = waiting.take(alloc, mark);
        let opened = open_each(h, live, reach, waiters.as_slice(), waiting);
        drop(waiters);
        opened?;
    }
    Ok(())
}

fn open_each(
    h: &Hddl,
    live: &Live,
    reach: &mut Reach,
    waiters: &[Waiter],
    waiting: &mut Waiting,
) -> Result<(), Memory>
    ensures sound { OnOk result (spec.StaysOpened h.now (spec.parts_of live.now) reach.old reach.new) }
{
    for waiter in waiters {
        if let Waiter::Method(n) = *waiter {
            if reach.try_method(h, live, n)? {
                set_subtasks(h, n, waiting)?;
            }
        }
    }
    Ok(())
}

fn set_subtasks(h: &Hddl, n: u32, waiting: &mut Waiting) -> Result<(), Memory> {
    match h.methods.get(n as usize) {
        Some(method) => waiting.set_tasks(method.children.as_slice()),
        None => Ok(()),
    }
}
