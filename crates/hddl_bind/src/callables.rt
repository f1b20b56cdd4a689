ghost use Rattle.std.specs.Prelude.{◌≡◌, flat_map, IfOk};
ghost use Rattle.name_binding.specs.Spots.{noted};
ghost use Rattle.plan_model.specs.declared.networks.Head.TheVariants.{Task, Action};
ghost use Rattle.hddl_bind.specs.Callables as spec;

use crate::callees::Callees;
use hddl_reader::{RawAction, RawHead};
use htn_base::{List, Memory, Name, number};
use name_binding::Faults;
use plan_model::Head;
use std::alloc::Global;
use std::marker::Model;

/// A declared task or action: its name, what a subtask of this name is, the number of parameters, and the offset of the name's
/// word.
#[derive(Clone, Copy)]
pub struct Callable {
    pub name: Name,
    pub head: Head,
    pub arity: u32,
    pub at: u32,
}

/// The tasks and actions of a domain, which share one space of names. Contracts see both lists in text order.
pub struct Callables {
    tasks: Callees,
    actions: Callees,
}

impl Drop for Callables {
    fn drop(self) {
        let Callables {
            tasks: _,
            actions: _,
        } = self;
    }
}

impl Model for Callables {
    ghost use Rattle.hddl_bind.specs.Callables.{Declared};

    ghost Value = { Declared };

    ghost view = { λ callables. record { tasks = callables.tasks; actions = callables.actions } };
}

impl Callables {
    /// Those that a domain declares.
    pub fn new(alloc: Global, tasks: &[RawHead], actions: &[RawAction]) -> Result<Callables, Memory>
        ensures declared { IfOk result
            (λ callables. callables ≡ spec.declared tasks.now actions.now) }
    {
        let tasks = Callees::new(alloc, tasks_of(alloc, tasks)?)?;
        let actions = Callees::new(alloc, actions_of(alloc, actions)?)?;
        Ok(Callables { tasks, actions })
    }

    /// What the name stands for: of the tasks and actions of this name the one that stands first in the text.
    pub fn get(&self, name: Name) -> Option<Callable>
        ensures first { result ≡ spec.stands_for self.now name.number }
    {
        match self.tasks.get(name) {
            Some(task) => match self.actions.get(name) {
                Some(action) if action.at < task.at => Some(action),
                _ => Some(task),
            },
            None => self.actions.get(name),
        }
    }

    /// Notes the fault of each task and action whose name stands for an earlier one.
    pub fn seconds(&self, faults: &mut Faults)
        ensures faults { faults.new.least
            ≡ noted faults.old.least (spec.second_callables self.now) }
    {
        self.seconds_among(self.tasks.as_slice(), faults);
        self.seconds_among(self.actions.as_slice(), faults);
    }

    fn seconds_among(&self, callables: &[Callable], faults: &mut Faults)
        ensures faults { faults.new.least
            ≡ noted faults.old.least (flat_map (spec.second_in self.now) callables.now) }
    {
        for callable in callables {
            self.note_second(*callable, faults);
        }
    }

    fn note_second(&self, callable: Callable, faults: &mut Faults)
        ensures faults { faults.new.least
            ≡ noted faults.old.least (spec.second_in self.now callable) }
    {
        match self.get(callable.name) {
            Some(first) if first.at < callable.at => faults.note(callable.at, 10),
            _ => {}
        }
    }
}

fn tasks_of(alloc: Global, tasks: &[RawHead]) -> Result<List<Callable>, Memory>
    ensures { IfOk result (λ made. made ≡ spec.callables_from Task 0 tasks.now) }
{
    let mut made = List::new(alloc);
    for (k, task) in tasks.iter().enumerate() {
        made.put(callable_of(Head::Task(number(k)?), task))?;
    }
    Ok(made)
}

fn actions_of(alloc: Global, actions: &[RawAction]) -> Result<List<Callable>, Memory>
    ensures { IfOk result (λ made. made ≡ spec.callables_from Action 0 (spec.heads actions.now)) }
{
    let mut made = List::new(alloc);
    for (k, action) in actions.iter().enumerate() {
        made.put(callable_of(Head::Action(number(k)?), &action.head))?;
    }
    Ok(made)
}

fn callable_of(head: Head, declared: &RawHead) -> Result<Callable, Memory>
    ensures { IfOk result (λ callable. callable ≡ spec.callable head declared.now) }
{
    Ok(Callable {
        name: declared.name.name,
        head,
        arity: number(declared.params.len())?,
        at: declared.name.at,
    })
}
