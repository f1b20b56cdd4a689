ghost use Rattle.std.specs.Prelude.{◌≡◌, IfOk, OnOk};
ghost use Rattle.live_parts.specs.Kept.{AreKept};
ghost use Rattle.hddl_prune.specs.Search as spec;

use crate::live::Live;
use crate::marks::Marks;
use crate::spreading::open;
use htn_base::{Memory, number};
use plan_model::{Child, Hddl, Head};
use std::alloc::Global;

/// The numbers of the tasks and actions that the top method reaches, and of the methods by which it does.
pub(crate) struct Reach {
    pub(crate) tasks: Marks,
    pub(crate) actions: Marks,
    pub(crate) methods: Marks,
}

impl Drop for Reach {
    fn drop(self) {
        let Reach {
            tasks: _,
            actions: _,
            methods: _,
        } = self;
    }
}

impl Reach {
    /// What is kept.
    pub(crate) fn of(alloc: Global, h: &Hddl, live: &Live) -> Result<Reach, Memory>
        ensures opened { IfOk result (λ reach. spec.AreOpened h.now (spec.parts_of live.now) (spec.kept_of reach)) }
        ensures settled { IfOk result (λ reach. spec.AreOpeningsSettled h.now (spec.parts_of live.now) (spec.kept_of reach)) }
    {
        let mut reach = Reach {
            tasks: Marks::new(alloc),
            actions: Marks::new(alloc),
            methods: Marks::new(alloc),
        };
        reach.mark_all(h.top.children.as_slice())?;
        open(alloc, h, live, &mut reach)?;
        while reach.try_all(h, live)? {}
        Ok(reach)
    }

    /// Tries each method once. Whether one was opened.
    fn try_all(&mut self, h: &Hddl, live: &Live) -> Result<bool, Memory>
        ensures tried { IfOk result (spec.IsTriedReach h.now (spec.parts_of live.now)
            (spec.AreOpeningsSettled h.now (spec.parts_of live.now)) self.old self.new) }
    {
        let mut found = false;
        for n in 0..number(h.methods.len())? {
            if self.try_method(h, live, n)? {
                found = true;
            }
        }
        Ok(found)
    }

    /// Marks the method and its subtasks, where it isn't marked yet, is live, and its task is marked. Whether it was marked.
    pub(crate) fn try_method(&mut self, h: &Hddl, live: &Live, n: u32) -> Result<bool, Memory>
        ensures tried { IfOk result (spec.IsTriedReach h.now (spec.parts_of live.now)
            (spec.IsOpeningSettled h.now (spec.parts_of live.now) n) self.old self.new) }
    {
        let Some(method) = h.methods.get(n as usize) else {
            return Ok(false);
        };
        if self.methods.has(n) {
            return Ok(false);
        }
        if !live.methods.has(n) {
            return Ok(false);
        }
        if !self.tasks.has(method.task) {
            return Ok(false);
        }
        self.methods.mark(n)?;
        self.mark_all(method.children.as_slice())?;
        Ok(true)
    }

    fn mark_all(&mut self, children: &[Child]) -> Result<(), Memory>
        ensures { OnOk result (spec.MarksHeads (spec.IsHeadOf children.now) (spec.kept_of self.old) (spec.kept_of self.new)) }
    {
        for child in children {
            self.mark(child.head)?;
        }
        Ok(())
    }

    fn mark(&mut self, head: Head) -> Result<(), Memory>
        ensures { OnOk result (spec.MarksHeads (λ x. x ≡ head) (spec.kept_of self.old) (spec.kept_of self.new)) }
    {
        match head {
            Head::Task(task) => self.tasks.mark(task),
            Head::Action(action) => self.actions.mark(action),
            Head::Check => Ok(()),
        }
    }
}
