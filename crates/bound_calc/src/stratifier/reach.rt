ghost use Rattle.std.specs.Prelude.{◌≡◌, ◌+◌, ◌<◌, [], All, Contains, length, IfOk, OnOk};
ghost use Rattle.bound_calc.specs.stratifier.Conditions.{IsSmallCompiled};
ghost use Rattle.bound_calc.specs.stratifier.Entered.{AreEntered, AreReachedMarks, AreSubtasksEntered, AreUnmarked, HaveMarks};

use crate::stratifier::by_task::methods_by_task;
use htn_base::Memory;
use plan_model::{Compiled, Head, MethodPlan};
use std::alloc::Global;

/// A mark for each task, the top task too: whether it is reached from the top.
pub fn reached(alloc: Global, c: &Compiled) -> Result<Vec<bool>, Memory>
    requires small { IsSmallCompiled c.now }
    ensures room { IfOk result (λ marks. length marks.items ≡ length c.now.hddl.tasks + 1) }
    ensures reached { IfOk result (λ marks. AreReachedMarks c.now marks.items) }
{
    let top = c.hddl.tasks.len();
    let methods = c.methods.as_slice();
    let by_task = methods_by_task(alloc, top + 1, methods)?;
    let mut walk = Walk::new(alloc, top + 1)?;
    walk.enter(top as u32)?;
    while let Some(task) = walk.work.pop() {
        walk.enter_next(methods, by_task[task as usize].as_slice())?;
    }
    Ok(walk.into_marks())
}

/// A walk over the tasks: those that were entered are marked, and `work` has those that are still
/// to be done.
pub struct Walk {
    pub marks: Vec<bool>,
    pub work: Vec<u32>,
}

impl Drop for Walk {
    fn drop(self) {
        let Walk { marks: _, work: _ } = self;
    }
}

impl Walk {
    /// The walk over so many tasks that entered none.
    pub fn new(alloc: Global, count: usize) -> Result<Walk, Memory>
        ensures room { IfOk result (λ walk. length walk.marks.items ≡ count) }
        ensures empty { IfOk result (λ walk. AreUnmarked walk.marks.items) }
        ensures nothing { IfOk result (λ walk. walk.work.items ≡ []) }
    {
        let marks = vec![in alloc; false; count]?;
        Ok(Walk {
            marks,
            work: Vec::new(alloc),
        })
    }

    /// The marks of the tasks.
    fn into_marks(self) -> Vec<bool>
        ensures { result ≡ self.marks }
    {
        let Walk { marks, work: _ } = self;
        marks
    }

    /// Enters the task, unless it was entered before.
    pub fn enter(&mut self, task: u32) -> Result<(), Memory>
        requires { task < length self.old.marks.items }
        ensures entered { OnOk result (AreEntered (λ t. t ≡ task) self.old self.new) }
    {
        if !self.marks[task as usize] {
            self.marks[task as usize] = true;
            self.work.push(task)?;
        }
        Ok(())
    }

    /// Enters each of the tasks.
    pub fn enter_all(&mut self, tasks: &[u32]) -> Result<(), Memory>
        requires { All (λ t. t < length self.old.marks.items) tasks.now }
        ensures entered { OnOk result (AreEntered (Contains tasks.now) self.old self.new) }
    {
        for task in tasks {
            self.enter(*task)?;
        }
        Ok(())
    }

    /// Enters the tasks among the children of the methods at these places.
    fn enter_next(&mut self, methods: &[MethodPlan], places: &[u32]) -> Result<(), Memory>
        requires places { All (λ m. m < length methods.now) places.now }
        requires tasks { HaveMarks methods.now places.now self.old }
        ensures entered { OnOk result (AreSubtasksEntered methods.now places.now self.old self.new) }
    {
        for m in places {
            for child in methods[*m as usize].schema.children.as_slice() {
                if let Head::Task(task) = child.head {
                    self.enter(task)?;
                }
            }
        }
        Ok(())
    }
}
