use htn_base::{List, Memory, number};
use plan_model::{Child, Formula, Hddl, Head, MethodSchema};
use std::alloc::Global;
use std::mem;

/// What may be marked.
#[derive(Clone, Copy)]
pub(crate) enum Mark {
    Predicate(u32),
    Action(u32),
    Task(u32),
}

/// What is to be tried once more where something is marked for which it waits.
#[derive(Clone, Copy, PartialEq, Eq)]
pub(crate) enum Waiter {
    Action(u32),
    Method(u32),
}

/// For each mark what waits for it, how many subtasks of each method aren't looked at yet, and the marks that are to be looked at.
/// It tells a search where to look next, and what is found doesn't rest on it.
pub(crate) struct Waiting {
    predicates: Vec<List<Waiter>>,
    actions: Vec<List<Waiter>>,
    tasks: Vec<List<Waiter>>,
    missing: Vec<u32>,
    marked: Vec<Mark>,
}

impl Drop for Waiting {
    fn drop(self) {
        let Waiting {
            predicates: _,
            actions: _,
            tasks: _,
            missing: _,
            marked: _,
        } = self;
    }
}

impl Waiting {
    /// Nothing waits, and nothing is marked.
    pub(crate) fn new(alloc: Global, h: &Hddl) -> Result<Waiting, Memory> {
        let predicates = empty_lists(alloc, h.predicates.len())?;
        let actions = empty_lists(alloc, h.actions.len())?;
        let tasks = empty_lists(alloc, h.tasks.len())?;
        Ok(Waiting {
            predicates,
            actions,
            tasks,
            missing: Vec::new(alloc),
            marked: Vec::new(alloc),
        })
    }

    /// Each action waits for the predicates of its precondition, each method for these and for its subtasks.
    pub(crate) fn put_all(&mut self, h: &Hddl) -> Result<(), Memory> {
        for n in 0..number(h.actions.len())? {
            if let Some(action) = h.actions.get(n as usize) {
                wait_for(&action.pre, Waiter::Action(n), self)?;
            }
        }
        for n in 0..number(h.methods.len())? {
            if let Some(method) = h.methods.get(n as usize) {
                self.put_method(method, n)?;
            }
        }
        Ok(())
    }

    fn put_method(&mut self, method: &MethodSchema, n: u32) -> Result<(), Memory> {
        for child in method.children.as_slice() {
            self.put_head(child.head, n)?;
        }
        self.missing.push(number(method.children.len())?)?;
        wait_for(&method.pre, Waiter::Method(n), self)
    }

    fn put_head(&mut self, head: Head, n: u32) -> Result<(), Memory> {
        match head {
            Head::Task(task) => put(&mut self.tasks, task, Waiter::Method(n)),
            Head::Action(action) => put(&mut self.actions, action, Waiter::Method(n)),
            Head::Check => Ok(()),
        }
    }

    /// Each method waits for its task.
    pub(crate) fn put_by_task(&mut self, h: &Hddl) -> Result<(), Memory> {
        for n in 0..number(h.methods.len())? {
            if let Some(method) = h.methods.get(n as usize) {
                put(&mut self.tasks, method.task, Waiter::Method(n))?;
            }
        }
        Ok(())
    }

    /// The mark is set, and to be looked at.
    pub(crate) fn set(&mut self, mark: Mark) -> Result<(), Memory> {
        self.marked.push(mark)?;
        Ok(())
    }

    /// The tasks among the subtasks are marked.
    pub(crate) fn set_tasks(&mut self, children: &[Child]) -> Result<(), Memory> {
        for child in children {
            if let Head::Task(task) = child.head {
                self.set(Mark::Task(task))?;
            }
        }
        Ok(())
    }

    /// A mark that is to be looked at.
    pub(crate) fn next(&mut self) -> Option<Mark> {
        self.marked.pop()
    }

    /// What waits for the mark. It waits no longer.
    pub(crate) fn take(&mut self, alloc: Global, mark: Mark) -> List<Waiter> {
        match mark {
            Mark::Predicate(predicate) => take(alloc, &mut self.predicates, predicate),
            Mark::Action(action) => take(alloc, &mut self.actions, action),
            Mark::Task(task) => take(alloc, &mut self.tasks, task),
        }
    }

    /// Whether the waiter is to be tried now that the mark is looked at: a method only after its last subtask.
    pub(crate) fn is_due(&mut self, mark: Mark, waiter: Waiter) -> bool {
        let Waiter::Method(n) = waiter else {
            return true;
        };
        let Some(missing) = self.missing.get_mut(n as usize) else {
            return true;
        };
        if !matches!(mark, Mark::Predicate(_)) {
            *missing = missing.saturating_sub(1);
        }
        *missing == 0
    }
}

/// So many empty lists.
fn empty_lists(alloc: Global, count: usize) -> Result<Vec<List<Waiter>>, Memory> {
    let mut lists = Vec::new(alloc);
    for _ in 0..count {
        lists.push(List::new(alloc))?;
    }
    Ok(lists)
}

fn put(lists: &mut Vec<List<Waiter>>, n: u32, waiter: Waiter) -> Result<(), Memory> {
    match lists.get_mut(n as usize) {
        Some(list) => list.push(waiter),
        None => Ok(()),
    }
}

fn take(alloc: Global, lists: &mut Vec<List<Waiter>>, n: u32) -> List<Waiter> {
    match lists.get_mut(n as usize) {
        Some(list) => mem::replace(list, List::new(alloc)),
        None => List::new(alloc),
    }
}

/// The waiter waits for the predicates of the atoms on which it rests whether the formula may be so.
#[cycle(wait_for)]
fn wait_for(f: &Formula, waiter: Waiter, waiting: &mut Waiting) -> Result<(), Memory> {
    match f {
        Formula::Holds(atom) => put_once(&mut waiting.predicates, atom.predicate, waiter),
        Formula::Equal(_, _) => Ok(()),
        Formula::Not(_) => Ok(()),
        Formula::And(parts) => wait_for_parts(parts, waiter, waiting),
        Formula::Or(parts) => wait_for_parts(parts, waiter, waiting),
        Formula::Imply(_, _) => Ok(()),
        Formula::Forall(_, body) => wait_for(body.get(), waiter, waiting),
        Formula::Exists(_, body) => wait_for(body.get(), waiter, waiting),
    }
}

#[cycle(wait_for)]
fn wait_for_parts(
    formulas: &List<Formula>,
    waiter: Waiter,
    waiting: &mut Waiting,
) -> Result<(), Memory> {
    let parts = formulas.as_slice();
    for part in parts {
        wait_for(part, waiter, waiting)?;
    }
    Ok(())
}

/// Puts the waiter, unless it was put last.
fn put_once(lists: &mut Vec<List<Waiter>>, n: u32, waiter: Waiter) -> Result<(), Memory> {
    match lists.get_mut(n as usize) {
        Some(list) if list.as_slice().last() != Some(&waiter) => list.push(waiter),
        _ => Ok(()),
    }
}
