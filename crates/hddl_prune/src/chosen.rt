ghost use Rattle.std.specs.Prelude.{◌≡◌, ◌++◌, [], map, slice_get, IfOk, OnOk};
ghost use Rattle.std.specs.List.Sorted.{IsStrictlyIncreasing};
ghost use Rattle.live_parts.specs.Pruned as spec;
ghost use Rattle.live_parts.specs.Kept.{AreKept};
ghost use Rattle.hddl_prune.specs.Search.{parts_of};
ghost use Rattle.hddl_prune.specs.Chosen.{chosen, AreRising};

use crate::copies::{copy_action, copy_task};
use crate::live::Live;
use crate::reach::Reach;
use htn_base::{List, Memory, number};
use plan_model::{ActionSchema, Child, Hddl, Head, MethodSchema, TaskSchema};
use std::alloc::Global;

/// The numbers of what is kept, rising.
pub(crate) struct Chosen {
    pub(crate) tasks: List<u32>,
    pub(crate) actions: List<u32>,
    pub(crate) methods: List<u32>,
}

impl Drop for Chosen {
    fn drop(self) {
        let Chosen {
            tasks: _,
            actions: _,
            methods: _,
        } = self;
    }
}

impl Chosen {
    /// What is kept, where these parts are live.
    pub(crate) fn of(alloc: Global, h: &Hddl, live: &Live) -> Result<Chosen, Memory>
        ensures kept { IfOk result (λ kept. AreKept h.now (parts_of live.now) (chosen kept)) }
        ensures rising { IfOk result (λ kept. AreRising (chosen kept)) }
    {
        let reach = Reach::of(alloc, h, live)?;
        let tasks = reach.tasks.numbers(alloc)?;
        let actions = reach.actions.numbers(alloc)?;
        let methods = reach.methods.numbers(alloc)?;
        Ok(Chosen {
            tasks,
            actions,
            methods,
        })
    }

    /// The kept tasks.
    pub(crate) fn task_list(&self, alloc: Global, h: &Hddl) -> Result<List<TaskSchema>, Memory>
        ensures { IfOk result (λ tasks. tasks ≡ spec.only h.now.tasks self.now.tasks) }
    {
        let numbers = self.tasks.as_slice();
        let mut tasks = List::new(alloc);
        for n in numbers {
            put_task(alloc, &h.tasks, *n, &mut tasks)?;
        }
        Ok(tasks)
    }

    /// The kept actions.
    pub(crate) fn action_list(&self, alloc: Global, h: &Hddl) -> Result<List<ActionSchema>, Memory>
        ensures { IfOk result (λ actions. actions ≡ spec.only h.now.actions self.now.actions) }
    {
        let numbers = self.actions.as_slice();
        let mut actions = List::new(alloc);
        for n in numbers {
            put_action(alloc, &h.actions, *n, &mut actions)?;
        }
        Ok(actions)
    }

    /// The kept methods, with the new numbers.
    pub(crate) fn method_list(&self, alloc: Global, h: &Hddl) -> Result<List<MethodSchema>, Memory>
        requires rising { AreRising (chosen self.now) }
        ensures { IfOk result (λ methods. methods
            ≡ map (spec.renamed_method (chosen self.now)) (spec.only h.now.methods self.now.methods)) }
    {
        let numbers = self.methods.as_slice();
        let mut methods = List::new(alloc);
        for n in numbers {
            self.put_method(alloc, &h.methods, *n, &mut methods)?;
        }
        Ok(methods)
    }

    fn put_method(
        &self,
        alloc: Global,
        methods: &List<MethodSchema>,
        n: u32,
        into: &mut List<MethodSchema>,
    ) -> Result<(), Memory>
        requires rising { AreRising (chosen self.now) }
        ensures { OnOk result (into.new ≡ into.old
            ++ map (spec.renamed_method (chosen self.now)) (spec.with_first (slice_get methods.now n) [])) }
    {
        match methods.get(n as usize) {
            Some(method) => into.put(self.method(alloc, method)),
            None => Ok(()),
        }
    }

    /// The method, with the new numbers.
    pub(crate) fn method(
        &self,
        alloc: Global,
        method: &MethodSchema,
    ) -> Result<MethodSchema, Memory>
        requires rising { AreRising (chosen self.now) }
        ensures { IfOk result (λ new. new ≡ spec.renamed_method (chosen self.now) method.now) }
    {
        let task = place(self.tasks.as_slice(), method.task)?;
        let children = self.children(alloc, method.children.as_slice())?;
        let pre = method.pre.copy(alloc)?;
        let params = method.params.copy(alloc)?;
        let task_args = method.task_args.copy(alloc)?;
        let pairs = method.pairs.copy(alloc)?;
        let constraints = method.constraints.copy(alloc)?;
        Ok(MethodSchema {
            name: method.name,
            params,
            task,
            task_args,
            pre,
            children,
            pairs,
            constraints,
        })
    }

    fn children(&self, alloc: Global, children: &[Child]) -> Result<List<Child>, Memory>
        requires rising { AreRising (chosen self.now) }
        ensures { IfOk result (λ new. new ≡ map (spec.renamed_child (chosen self.now)) children.now) }
    {
        let mut list = List::new(alloc);
        for child in children {
            list.put(self.child(alloc, child))?;
        }
        Ok(list)
    }

    fn child(&self, alloc: Global, child: &Child) -> Result<Child, Memory>
        requires rising { AreRising (chosen self.now) }
        ensures { IfOk result (λ new. new ≡ spec.renamed_child (chosen self.now) child.now) }
    {
        let head = self.head(child.head)?;
        Ok(Child {
            id: child.id,
            head,
            args: child.args.copy(alloc)?,
        })
    }

    fn head(&self, head: Head) -> Result<Head, Memory>
        requires rising { AreRising (chosen self.now) }
        ensures { IfOk result (λ new. new ≡ spec.renamed_head (chosen self.now) head) }
    {
        match head {
            Head::Task(task) => Ok(Head::Task(place(self.tasks.as_slice(), task)?)),
            Head::Action(action) => Ok(Head::Action(place(self.actions.as_slice(), action)?)),
            Head::Check => Ok(Head::Check),
        }
    }
}

fn put_task(
    alloc: Global,
    tasks: &List<TaskSchema>,
    n: u32,
    into: &mut List<TaskSchema>,
) -> Result<(), Memory>
    ensures { OnOk result (into.new ≡ into.old ++ spec.with_first (slice_get tasks.now n) []) }
{
    match tasks.get(n as usize) {
        Some(task) => into.put(copy_task(alloc, task)),
        None => Ok(()),
    }
}

fn put_action(
    alloc: Global,
    actions: &List<ActionSchema>,
    n: u32,
    into: &mut List<ActionSchema>,
) -> Result<(), Memory>
    ensures { OnOk result (into.new ≡ into.old ++ spec.with_first (slice_get actions.now n) []) }
{
    match actions.get(n as usize) {
        Some(action) => into.put(copy_action(alloc, action)),
        None => Ok(()),
    }
}

/// The place of a number among rising ones, or how many there are where it isn't among them.
fn place(numbers: &[u32], n: u32) -> Result<u32, Memory>
    requires { IsStrictlyIncreasing numbers.now }
    ensures { IfOk result (λ place. place ≡ spec.place numbers.now n) }
{
    match numbers.binary_search(&n) {
        Ok(place) => number(place),
        Err(_) => number(numbers.len()),
    }
}
