ghost use Rattle.std.specs.Prelude.{◌≡◌, ◌++◌, codes, map, IfOk, OnOk};
ghost use Rattle.plan_model.specs.plan_meaning.Schemas.{task};
ghost use Rattle.plan_model.specs.plan_meaning.Strata.{source, target};
ghost use Rattle.bound_calc.specs.stratifier.CycleWords as spec;
ghost use Rattle.bound_calc.specs.stratifier.Listed.{edge_of};
ghost use Rattle.bound_calc.specs.NoBound.{spaced};

use crate::stratifier::Edge;
use htn_base::{Memory, Name, Text};
use plan_model::{Compiled, Head};
use std::alloc::Global;

/// The words of a cycle of edges, each behind a space: a task, its method, the next task and so on, and at the end the
/// task that the last edge goes to.
pub fn cycle_words(alloc: Global, c: &Compiled, edges: &[Edge]) -> Result<Text, Memory>
    ensures words { IfOk result (λ text.
        text ≡ spaced (spec.cycle_words c.now (map edge_of edges.now))) }
{
    let mut text = Text::new(alloc);
    for edge in edges {
        push_word(&mut text, source_word(c, edge))?;
        push_word(&mut text, method_word(c, edge))?;
    }
    match edges.last() {
        Some(edge) => {
            push_word(&mut text, target_word(c, edge))?;
            Ok(text)
        }
        None => Ok(text),
    }
}

fn push_word(text: &mut Text, word: &[u8]) -> Result<(), Memory>
    ensures pushed { OnOk result (text.new ≡ text.old ++ codes " " ++ word.now) }
{
    text.push_all(b" ")?;
    text.push_all(word)
}

/// The word of the task that the edge goes from.
fn source_word<'a>(c: &'a Compiled, edge: &Edge) -> &'a [u8]
    ensures { result.now ≡ spec.task_word c.now (source c.now (edge_of edge.now)) }
{
    match c.methods.get(edge.method as usize) {
        Some(plan) => task_word(c, plan.schema.task),
        None => task_word(c, 0),
    }
}

/// The word of the edge's method.
fn method_word<'a>(c: &'a Compiled, edge: &Edge) -> &'a [u8]
    ensures { result.now ≡ spec.method_word c.now edge.now.method }
{
    match c.methods.get(edge.method as usize) {
        Some(plan) => written(c, plan.schema.name),
        None => b"",
    }
}

/// The word of the task that the edge goes to.
fn target_word<'a>(c: &'a Compiled, edge: &Edge) -> &'a [u8]
    ensures { result.now ≡ spec.task_word c.now (target c.now (edge_of edge.now)) }
{
    let Some(plan) = c.methods.get(edge.method as usize) else {
        return task_word(c, 0);
    };
    let Some(child) = plan.schema.children.get(edge.child as usize) else {
        return task_word(c, 0);
    };
    match child.head {
        Head::Task(task) => task_word(c, task),
        Head::Action(_) | Head::Check => b"",
    }
}

/// The word of the task; the top task's is `htn_top`.
fn task_word(c: &Compiled, number: u32) -> &[u8]
    ensures { result.now ≡ spec.task_word c.now (task number) }
{
    match c.hddl.tasks.get(number as usize) {
        Some(schema) => written(c, schema.name),
        None => b"htn_top",
    }
}

/// A name as it is written.
fn written(c: &Compiled, name: Name) -> &[u8]
    ensures { result.now ≡ spec.written c.now name.number }
{
    match c.hddl.names.text(name) {
        Some(word) => word,
        None => b"",
    }
}
