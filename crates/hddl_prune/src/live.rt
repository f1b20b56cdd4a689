ghost use Rattle.std.specs.Prelude.{◌↔◌, IsTrue, IfOk, OnOk};
ghost use Rattle.plan_model.specs.Parts.{AreListed};
ghost use Rattle.live_parts.specs.Live.{AreLive, IsLiveHead, IsLiveMethod, MayBeSolved};
ghost use Rattle.hddl_prune.specs.Places.{HasAlso};
ghost use Rattle.hddl_prune.specs.Search as spec;

use crate::adding::mark_added;
use crate::marks::Marks;
use crate::may::may_be_so;
use crate::spreading::spread;
use htn_base::{Memory, number};
use plan_model::{Child, Facts, Hddl, Head, MethodSchema};
use std::alloc::Global;

/// The numbers of the predicates, actions, methods and tasks that are found to be live.
pub(crate) struct Live {
    pub(crate) predicates: Marks,
    pub(crate) actions: Marks,
    pub(crate) methods: Marks,
    pub(crate) tasks: Marks,
}

impl Drop for Live {
    fn drop(self) {
        let Live {
            predicates: _,
            actions: _,
            methods: _,
            tasks: _,
        } = self;
    }
}

impl Live {
    /// The live parts.
    pub(crate) fn of(alloc: Global, h: &Hddl) -> Result<Live, Memory>
        requires listed { AreListed h.now.types }
        ensures live { IfOk result (λ live. AreLive h.now (spec.parts_of live)) }
    {
        let mut live = Live::first(alloc, h)?;
        spread(alloc, h, &mut live)?;
        while live.try_all(h)? {}
        Ok(live)
    }

    /// The predicates of the first atoms.
    fn first(alloc: Global, h: &Hddl) -> Result<Live, Memory>
        ensures found { IfOk result (λ live. spec.AreFound h.now (spec.parts_of live)) }
    {
        let mut predicates = Marks::new(alloc);
        for i in 0..h.init.len() {
            mark_predicate_of(&h.init, i, &mut predicates)?;
        }
        Ok(Live {
            predicates,
            actions: Marks::new(alloc),
            methods: Marks::new(alloc),
            tasks: Marks::new(alloc),
        })
    }

    /// Tries each action and each method once. Whether one was found.
    fn try_all(&mut self, h: &Hddl) -> Result<bool, Memory>
        requires listed { AreListed h.now.types }
        ensures tried { IfOk result (spec.IsTriedLive h.now (spec.AreSettled h.now) self.old self.new) }
    {
        let action = self.try_actions(h)?;
        let method = self.try_methods(h)?;
        Ok(action || method)
    }

    fn try_actions(&mut self, h: &Hddl) -> Result<bool, Memory>
        requires listed { AreListed h.now.types }
        ensures tried { IfOk result (spec.IsTriedLive h.now (spec.AreActionsSettled h.now) self.old self.new) }
    {
        let mut found = false;
        for n in 0..number(h.actions.len())? {
            if self.try_action(h, n)? {
                found = true;
            }
        }
        Ok(found)
    }

    fn try_methods(&mut self, h: &Hddl) -> Result<bool, Memory>
        requires listed { AreListed h.now.types }
        ensures tried { IfOk result (spec.IsTriedLive h.now (spec.AreMethodsSettled h.now) self.old self.new) }
    {
        let mut found = false;
        for n in 0..number(h.methods.len())? {
            if self.try_method(h, n)? {
                found = true;
            }
        }
        Ok(found)
    }

    /// Marks the action and what it adds, where it isn't marked yet and its precondition may be so. Whether it was marked.
    pub(crate) fn try_action(&mut self, h: &Hddl, n: u32) -> Result<bool, Memory>
        requires listed { AreListed h.now.types }
        ensures tried { IfOk result (spec.IsTriedLive h.now (spec.IsActionSettled h.now n) self.old self.new) }
    {
        let Some(action) = h.actions.get(n as usize) else {
            return Ok(false);
        };
        if self.actions.has(n) {
            return Ok(false);
        }
        if !may_be_so(h, &self.predicates, &action.pre) {
            return Ok(false);
        }
        self.actions.mark(n)?;
        mark_added(&action.eff, &mut self.predicates)?;
        Ok(true)
    }

    /// Marks the method and its task, where it isn't marked yet and is live. Whether it was marked.
    pub(crate) fn try_method(&mut self, h: &Hddl, n: u32) -> Result<bool, Memory>
        requires listed { AreListed h.now.types }
        ensures tried { IfOk result (spec.IsTriedLive h.now (spec.IsMethodSettled h.now n) self.old self.new) }
    {
        let Some(method) = h.methods.get(n as usize) else {
            return Ok(false);
        };
        if self.methods.has(n) {
            return Ok(false);
        }
        if !self.may_be_used(h, method) {
            return Ok(false);
        }
        self.methods.mark(n)?;
        self.tasks.mark(method.task)?;
        Ok(true)
    }

    /// Whether the precondition may be so and all subtasks are live.
    fn may_be_used(&self, h: &Hddl, method: &MethodSchema) -> bool
        requires listed { AreListed h.now.types }
        ensures { IsTrue result ↔ IsLiveMethod h.now (spec.parts_of self.now) method.now }
    {
        self.have_all(method.children.as_slice()) && may_be_so(h, &self.predicates, &method.pre)
    }

    fn have_all(&self, children: &[Child]) -> bool
        ensures { IsTrue result ↔ spec.AreLiveHeads (spec.parts_of self.now) children.now }
    {
        for child in children {
            if !self.have(child.head) {
                return false;
            }
        }
        true
    }

    fn have(&self, head: Head) -> bool
        ensures { IsTrue result ↔ IsLiveHead (spec.parts_of self.now) head }
    {
        match head {
            Head::Task(task) => self.tasks.has(task),
            Head::Action(action) => self.actions.has(action),
            Head::Check => true,
        }
    }

    /// Whether the top method is live and the goal may be so.
    pub(crate) fn may_solve(&self, h: &Hddl) -> bool
        requires listed { AreListed h.now.types }
        ensures { IsTrue result ↔ MayBeSolved h.now (spec.parts_of self.now) }
    {
        self.may_be_used(h, &h.top) && may_be_so(h, &self.predicates, &h.goal)
    }
}

/// Marks the predicate of the fact at place `i`.
fn mark_predicate_of(init: &Facts, i: usize, predicates: &mut Marks) -> Result<(), Memory>
    ensures { OnOk result (HasAlso predicates.old (spec.IsPredicateAt init.now i) predicates.new) }
{
    match init.get(i) {
        Some(fact) => predicates.mark(fact.predicate),
        None => Ok(()),
    }
}
