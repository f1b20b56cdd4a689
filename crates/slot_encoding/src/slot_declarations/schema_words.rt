ghost use Rattle.std.specs.Prelude.{◌≡◌, [], map, OnOk};
ghost use Rattle.slot_encoding.specs.EncodedNames.{joined, guard_types, guard_word};
ghost use Rattle.slot_encoding.specs.slot_declarations.Vocabulary as spec;
ghost use Rattle.slot_encoding.specs.slot_declarations.Vocabulary.{Gains};

use crate::slot_declarations::guards::{guard_types, guard_word};
use crate::slot_declarations::vocabulary::{put, put_numbered, put_prefixed};
use htn_base::{Memory, NameTable, WordList, number};
use plan_model::{ActionSchema, Compiled, MethodPlan, TaskSchema};
use std::alloc::Global;

/// Puts the words of the tasks' predicates into the table.
pub(crate) fn put_tasks(
    alloc: Global,
    source: &WordList,
    tasks: &[TaskSchema],
    names: &mut NameTable,
) -> Result<(), Memory>
    ensures { OnOk result (Gains (map (spec.task_word source.now) tasks.now) names.old names.new) }
{
    for task in tasks {
        put_prefixed(alloc, source, b"htn_t_", task.name, names)?;
    }
    Ok(())
}

/// Puts the words of the actions' predicates into the table.
pub(crate) fn put_actions(
    alloc: Global,
    source: &WordList,
    actions: &[ActionSchema],
    names: &mut NameTable,
) -> Result<(), Memory>
    ensures { OnOk result (Gains (map (spec.action_word source.now) actions.now) names.old names.new) }
{
    for action in actions {
        put_prefixed(alloc, source, b"htn_a_", action.name, names)?;
    }
    Ok(())
}

/// Puts the words of the methods' actions and of their checks into the table.
pub(crate) fn put_methods(
    alloc: Global,
    source: &WordList,
    methods: &[MethodPlan],
    names: &mut NameTable,
) -> Result<(), Memory>
    ensures { OnOk result
        (Gains (joined (map (spec.words_of_method source.now) methods.now)) names.old names.new) }
{
    for plan in methods {
        put_prefixed(alloc, source, b"htn_m_", plan.schema.name, names)?;
        put_check(alloc, source, plan, names)?;
    }
    Ok(())
}

/// Puts the word of a method's check into the table, if it has one.
fn put_check(
    alloc: Global,
    source: &WordList,
    plan: &MethodPlan,
    names: &mut NameTable,
) -> Result<(), Memory>
    ensures { OnOk result (Gains (spec.words_if_checked source.now plan.now) names.old names.new) }
{
    if plan.checked {
        put_prefixed(alloc, source, b"htn_c_", plan.schema.name, names)
    } else {
        Ok(())
    }
}

/// Puts the words of the guards' predicates into the table.
pub(crate) fn put_guards(alloc: Global, c: &Compiled, names: &mut NameTable) -> Result<(), Memory>
    ensures { OnOk result
        (Gains (map (guard_word c.now [] 0) (guard_types c.now)) names.old names.new) }
{
    let guarded = guard_types(alloc, c)?;
    let types = guarded.as_slice();
    for ty in types {
        let word = guard_word(alloc, c, *ty)?;
        put(word.as_slice(), names)?;
    }
    Ok(())
}

/// Puts the variables of parameters and of new slots into the table, as many as any schema needs.
pub(crate) fn put_numbers(alloc: Global, c: &Compiled, names: &mut NameTable) -> Result<(), Memory>
    ensures { OnOk result (Gains (spec.numbered_words c.now) names.old names.new) }
{
    let params = number(most_params(c))?;
    let children = number(most_children(c.methods.as_slice()))?;
    put_numbered(alloc, b"htn_a", params, names)?;
    put_numbered(alloc, b"htn_h", children.saturating_sub(1), names)
}

/// The greatest number of parameters of a task, an action or a method.
fn most_params(c: &Compiled) -> usize
    ensures { result ≡ spec.most_params c.now }
{
    let tasks = c.hddl.tasks.as_slice();
    let mut of_tasks = 0;
    for task in tasks {
        of_tasks = of_tasks.max(task.params.len());
    }
    let actions = c.hddl.actions.as_slice();
    let mut of_actions = 0;
    for action in actions {
        of_actions = of_actions.max(action.params.len());
    }
    let methods = c.methods.as_slice();
    let mut of_methods = 0;
    for plan in methods {
        of_methods = of_methods.max(plan.schema.params.len());
    }
    of_tasks.max(of_actions).max(of_methods)
}

fn most_children(methods: &[MethodPlan]) -> usize
    ensures { result ≡ spec.most_children methods.now }
{
    let mut most = 0;
    for plan in methods {
        most = most.max(plan.schema.children.len());
    }
    most
}
