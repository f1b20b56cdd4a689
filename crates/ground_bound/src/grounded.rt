//! What is reached, as a compiled problem of schemas without parameters.

ghost use Rattle.std.specs.Prelude.{◌≡◌, ◌<◌, ◌≤◌, ◌+◌, ◌^◌, suc, map, length, slice_get, Some, Contains, IfOk};
ghost use Rattle.std.specs.List.{AllZip};
ghost use Rattle.plan_model.specs.declared.networks.Head.TheVariants.{Task};
ghost use Rattle.plan_model.specs.declared.networks.Child.{Child as Declared};
ghost use Rattle.plan_model.specs.plan_meaning.Network.{task, child_of, top_task};
ghost use Rattle.plan_model.specs.plan_meaning.Truth.{value_of, values_of};
ghost use Rattle.ground_bound.specs.Grounded as spec;
ghost use Rattle.ground_bound.specs.MethodRows.{row, ground};

use crate::in_order::MethodRow;
use htn_base::{List, Memory, Name, WordList};
use plan_model::{
    Child, Compiled, Facts, Formula, Hddl, Head, MethodPlan, MethodSchema, Pair, TaskSchema, Term,
    Types,
};
use reached_parts::RowSet;
use std::alloc::Global;

/// The problem without parameters that these tasks and these methods make. Actions and checks are both checks there, and what
/// tells nothing of strata and bound is left out.
pub(crate) fn grounded(
    alloc: Global,
    c: &Compiled,
    tasks: &RowSet,
    methods: &[MethodRow],
) -> Result<Compiled, Memory>
    requires few { length tasks.now < 2 ^ 32 }
    requires some { 0 < length tasks.now }
    requires listed { spec.HaveListedTasks c.now tasks.now (map row methods.now) }
    ensures grounded { IfOk result (spec.IsGrounded c.now tasks.now (map row methods.now)) }
{
    let plans = grounded_methods(alloc, c, tasks, methods)?;
    let schemas = task_schemas(alloc, tasks.len() - 1)?;
    Ok(Compiled {
        hddl: without_objects(alloc, schemas),
        methods: plans,
    })
}

/// So many tasks without a name.
fn task_schemas(alloc: Global, count: usize) -> Result<List<TaskSchema>, Memory>
    ensures count { IfOk result (λ tasks. length tasks ≡ count) }
{
    let mut tasks = List::with_room(alloc, count)?;
    for _ in 0..count {
        tasks.push(TaskSchema {
            name: Name { number: 0 },
            params: List::new(alloc),
        })?;
    }
    Ok(tasks)
}

/// A problem that has these tasks and nothing else.
fn without_objects(alloc: Global, tasks: List<TaskSchema>) -> Hddl
    ensures tasks { result.tasks ≡ tasks }
{
    let nothing = Name { number: 0 };
    Hddl {
        names: WordList::new(alloc),
        domain: nothing,
        problem: nothing,
        types: Types {
            names: List::new(alloc),
            parents: List::new(alloc),
            unions: List::new(alloc),
        },
        objects: List::new(alloc),
        predicates: List::new(alloc),
        tasks,
        actions: List::new(alloc),
        methods: List::new(alloc),
        top: schema(alloc, 0, List::new(alloc), List::new(alloc)),
        init: Facts::new(alloc),
        goal: Formula::And(List::new(alloc)),
    }
}

/// A method without parameters and conditions.
fn schema(alloc: Global, task: u32, children: List<Child>, pairs: List<Pair>) -> MethodSchema
    ensures task { result.task ≡ task }
    ensures children { result.children ≡ children }
    ensures pairs { result.pairs ≡ pairs }
{
    MethodSchema {
        name: Name { number: 0 },
        params: List::new(alloc),
        task,
        task_args: List::new(alloc),
        pre: Formula::And(List::new(alloc)),
        children,
        pairs,
        constraints: List::new(alloc),
    }
}

/// The methods of these rows.
fn grounded_methods(
    alloc: Global,
    c: &Compiled,
    tasks: &RowSet,
    methods: &[MethodRow],
) -> Result<List<MethodPlan>, Memory>
    requires few { length tasks.now < 2 ^ 32 }
    requires listed { spec.HaveListedTasks c.now tasks.now (map row methods.now) }
    ensures grounded { IfOk result (λ plans. AllZip (spec.IsGroundedRow c.now tasks.now) (map row methods.now) plans) }
{
    let mut plans = List::with_room(alloc, methods.len())?;
    for it in methods {
        match c.methods.get(it.number as usize) {
            Some(plan) => plans.put(grounded_method(alloc, tasks, it, plan))?,
            None => unreachable!(),
        }
    }
    Ok(plans)
}

/// The ground method of this plan.
fn grounded_method(
    alloc: Global,
    tasks: &RowSet,
    it: &MethodRow,
    plan: &MethodPlan,
) -> Result<MethodPlan, Memory>
    requires few { length tasks.now < 2 ^ 32 }
    requires listed { spec.HasListedTasks tasks.now (ground it.now) plan.now }
    ensures grounded { IfOk result (spec.IsGroundedMethod tasks.now (ground it.now) plan.now) }
{
    let from = &plan.schema;
    let task = task_number(alloc, tasks, it, from.task, from.task_args.as_slice())?;
    let children = grounded_children(alloc, tasks, it, from.children.as_slice())?;
    let pairs = from.pairs.copy(alloc)?;
    let line = plan.line.copy(alloc)?;
    Ok(MethodPlan {
        schema: schema(alloc, task, children, pairs),
        checked: false,
        tested: false,
        line,
        heir: None,
        copiers: List::new(alloc),
        guards: List::new(alloc),
    })
}

/// The children of a method, without arguments.
fn grounded_children(
    alloc: Global,
    tasks: &RowSet,
    it: &MethodRow,
    children: &[Child],
) -> Result<List<Child>, Memory>
    requires few { length tasks.now < 2 ^ 32 }
    requires listed { (child : Declared) → Contains children.now child → spec.IsListedTask tasks.now (child_of (ground it.now) child) }
    ensures grounded { IfOk result (λ kids. AllZip (spec.StandsForChild tasks.now (ground it.now)) children.now kids) }
{
    let mut kids = List::with_room(alloc, children.len())?;
    for child in children {
        kids.put(grounded_child(alloc, tasks, it, child))?;
    }
    Ok(kids)
}

/// A child without arguments: a task by its number, and else a check.
fn grounded_child(
    alloc: Global,
    tasks: &RowSet,
    it: &MethodRow,
    child: &Child,
) -> Result<Child, Memory>
    requires few { length tasks.now < 2 ^ 32 }
    requires listed { spec.IsListedTask tasks.now (child_of (ground it.now) child.now) }
    ensures child { IfOk result (spec.StandsForChild tasks.now (ground it.now) child.now) }
{
    let head = match child.head {
        Head::Task(task) => {
            Head::Task(task_number(alloc, tasks, it, task, child.args.as_slice())?)
        }
        Head::Action(_) | Head::Check => Head::Check,
    };
    Ok(Child {
        id: None,
        head,
        args: List::new(alloc),
    })
}

/// The number of a task that is listed, with the objects that the terms stand for: the last one listed has number 0.
fn task_number(
    alloc: Global,
    tasks: &RowSet,
    it: &MethodRow,
    number: u32,
    terms: &[Term],
) -> Result<u32, Memory>
    requires few { length tasks.now < 2 ^ 32 }
    requires listed { spec.IsListedTask tasks.now (task number (values_of it.now.objects.items terms.now)) }
    ensures number { IfOk result (λ n. spec.StandsFor tasks.now (Task n) (task number (values_of it.now.objects.items terms.now))) }
{
    let objects = objects_at(alloc, it.objects.as_slice(), terms)?;
    match tasks.place(number, objects) {
        Some(place) => Ok((tasks.len() - 1 - place) as u32),
        None => unreachable!(),
    }
}

/// The objects that the terms stand for, where these are the values of the parameters.
fn objects_at(alloc: Global, values: &[u32], terms: &[Term]) -> Result<Vec<u32>, Memory>
    ensures { IfOk result (λ objects. objects.items ≡ values_of values.now terms.now) }
{
    let mut objects = Vec::with_capacity(alloc, terms.len())?;
    for term in terms {
        objects.push(object_at(values, *term))?;
    }
    Ok(objects)
}

pub(crate) fn object_at(values: &[u32], term: Term) -> u32
    ensures { result ≡ value_of values.now term }
{
    match term {
        Term::Var(k) => match values.get(k as usize) {
            Some(object) => *object,
            None => 0,
        },
        Term::Obj(object) => object,
    }
}
