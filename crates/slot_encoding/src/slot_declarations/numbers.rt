ghost use Rattle.std.specs.Prelude.{◌≡◌, ◌+◌, length, IfOk};
ghost use Rattle.slot_encoding.specs.EncodedNames as spec;
ghost use Rattle.slot_encoding.specs.slot_declarations.Frames.{AreNumbers};
ghost use Rattle.slot_encoding.specs.slot_declarations.Pieces.{checked};

use htn_base::Memory;
use plan_model::Compiled;

/// The numbers of the generated predicates, after those of the source: three of the slots, and the first ones of the tasks,
/// the actions, the checks and the guards.
#[derive(Clone, Copy)]
pub struct Numbers {
    pub top: u32,
    pub free: u32,
    pub before: u32,
    pub first_task: u32,
    pub first_action: u32,
    pub first_check: u32,
    pub first_guard: u32,
}

/// The sum. One past 2^32 - 1 is answered as want of memory.
pub fn plus(a: u32, b: u32) -> Result<u32, Memory>
    ensures { IfOk result (λ sum. sum ≡ a + b) }
{
    match a.checked_add(b) {
        Some(sum) => Ok(sum),
        None => Err(Memory),
    }
}

/// The numbers in a problem with so many checks, if the predicates are few enough to have numbers, and the actions too.
pub(crate) fn numbers_of(c: &Compiled, checks: usize) -> Result<Numbers, Memory>
    requires { checks ≡ length (checked c.now.methods) }
    ensures { IfOk result (AreNumbers c.now) }
{
    let works = c.hddl.actions.len().saturating_add(checks);
    let tasks = c.hddl.predicates.len().saturating_add(c.hddl.tasks.len());
    let predicates = tasks.saturating_add(3).saturating_add(works);
    let actions = c.methods.len().saturating_add(works);
    if predicates.max(actions) > 0xffff_ffff {
        return Err(Memory);
    }
    let top = c.hddl.predicates.len() as u32;
    let first_task = top + 3;
    let first_action = first_task + c.hddl.tasks.len() as u32;
    let first_check = first_action + c.hddl.actions.len() as u32;
    Ok(Numbers {
        top,
        free: top + 1,
        before: top + 2,
        first_task,
        first_action,
        first_check,
        first_guard: first_check + checks as u32,
    })
}

/// The predicate of a task. The top task is the one after the last.
pub fn task_predicate(c: &Compiled, n: &Numbers, task: u32) -> Result<u32, Memory>
    requires { AreNumbers c.now n.now }
    ensures { IfOk result (λ p. p ≡ spec.task_predicate c.now task) }
{
    if task as usize == c.hddl.tasks.len() {
        Ok(n.top)
    } else {
        plus(n.first_task, task)
    }
}
