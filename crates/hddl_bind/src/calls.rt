ghost use Rattle.std.specs.Prelude.{◌≡◌};
ghost use Rattle.name_binding.specs.Spots.{noted};
ghost use Rattle.hddl_bind.specs.Calls as spec;

use crate::callables::{Callable, Callables};
use gd_reader::RawAtom;
use name_binding::Faults;
use plan_model::Head;

/// The task of a method. Where its name stands for none or for an action, or has another number of parameters, the fault is
/// noted.
pub fn task_of_method(callables: &Callables, task: &RawAtom, faults: &mut Faults) -> u32
    ensures bound { result
        ≡ spec.task_number (spec.head_called (spec.method_task callables.now task.now)) }
    ensures faults { faults.new.least ≡ noted faults.old.least
        (spec.call_faults (spec.method_task callables.now task.now) task.now) }
{
    let found = if_task(callables.get(task.head.name));
    match head_or_noted(found, task, faults) {
        Head::Task(number) => number,
        Head::Action(_) | Head::Check => 0,
    }
}

fn if_task(found: Option<Callable>) -> Option<Callable>
    ensures { result ≡ spec.if_task found }
{
    match found {
        Some(callable) => match callable.head {
            Head::Task(_) => Some(callable),
            Head::Action(_) | Head::Check => None,
        },
        None => None,
    }
}

/// The task or action that a subtask calls. Where its name stands for none, or has another number of parameters, the fault is
/// noted.
pub(crate) fn head_of(callables: &Callables, atom: &RawAtom, faults: &mut Faults) -> Head
    ensures bound { result ≡ spec.head_called (spec.called callables.now atom.now) }
    ensures faults { faults.new.least
        ≡ noted faults.old.least (spec.call_faults (spec.called callables.now atom.now) atom.now) }
{
    head_or_noted(callables.get(atom.head.name), atom, faults)
}

fn head_or_noted(found: Option<Callable>, atom: &RawAtom, faults: &mut Faults) -> Head
    ensures bound { result ≡ spec.head_called found }
    ensures faults { faults.new.least ≡ noted faults.old.least (spec.call_faults found atom.now) }
{
    match found {
        Some(callable) => {
            if callable.arity as usize != atom.args.len() {
                faults.note(atom.head.at, 17);
            }
            callable.head
        }
        None => {
            faults.note(atom.head.at, 14);
            Head::Task(0)
        }
    }
}
