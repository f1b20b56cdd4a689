ghost use Rattle.std.specs.Prelude.{◌≡◌, ◌++◌, codes, map, slice_get, IfOk, OnOk};
ghost use Rattle.plan_model.specs.plan_meaning.Network.{task, network};
ghost use Rattle.plan_model.specs.plan_meaning.Truth.{values_of};
ghost use Rattle.bound_calc.specs.stratifier.CycleWords as names;
ghost use Rattle.bound_calc.specs.NoBound.{spaced};
ghost use Rattle.slot_machine.specs.bound_laws.NetworkEdges.{source, target};
ghost use Rattle.ground_bound.specs.NoGroundBound.{edge_of};
ghost use Rattle.ground_bound.specs.GroundCycleWords as spec;

use crate::ground_error::GroundEdge;
use crate::grounded::object_at;
use htn_base::{Memory, Name, Text};
use plan_model::{Compiled, Head, Term};
use std::alloc::Global;

/// The words of a cycle of ground edges, each behind a space: a task with its objects in parentheses, its method, the next task and so
/// on, and at the end the task that the last edge goes to.
pub fn ground_cycle_words(alloc: Global, c: &Compiled, edges: &[GroundEdge]) -> Result<Text, Memory>
    ensures words { IfOk result (λ text. text ≡ spaced (spec.ground_cycle_words c.now (map edge_of edges.now))) }
{
    let mut text = Text::new(alloc);
    for edge in edges {
        push_source(&mut text, c, edge)?;
        push_method(&mut text, c, edge)?;
    }
    match edges.last() {
        Some(edge) => {
            push_target(&mut text, c, edge)?;
            Ok(text)
        }
        None => Ok(text),
    }
}

/// The task that the edge goes from.
fn push_source(text: &mut Text, c: &Compiled, edge: &GroundEdge) -> Result<(), Memory>
    ensures pushed { OnOk result (text.new ≡ text.old ++ codes " "
        ++ spec.ground_task_word c.now (source (network c.now) (edge_of edge.now))) }
{
    match c.methods.get(edge.method as usize) {
        Some(plan) => push_task(
            text,
            c,
            edge.args.as_slice(),
            plan.schema.task,
            plan.schema.task_args.as_slice(),
        ),
        None => push_task(text, c, edge.args.as_slice(), 0, &[]),
    }
}

/// The edge's method.
fn push_method(text: &mut Text, c: &Compiled, edge: &GroundEdge) -> Result<(), Memory>
    ensures pushed { OnOk result (text.new ≡ text.old ++ codes " " ++ names.method_word c.now edge.now.method) }
{
    text.push_all(b" ")?;
    text.push_all(method_name(c, edge.method))
}

/// The task that the edge goes to.
fn push_target(text: &mut Text, c: &Compiled, edge: &GroundEdge) -> Result<(), Memory>
    ensures pushed { OnOk result (text.new ≡ text.old ++ codes " "
        ++ spec.ground_task_word c.now (target (network c.now) (edge_of edge.now))) }
{
    let Some(plan) = c.methods.get(edge.method as usize) else {
        return push_source(text, c, edge);
    };
    let Some(child) = plan.schema.children.get(edge.child as usize) else {
        return push_source(text, c, edge);
    };
    match child.head {
        Head::Task(number) => push_task(
            text,
            c,
            edge.args.as_slice(),
            number,
            child.args.as_slice(),
        ),
        Head::Action(_) => text.push_all(b" "),
        Head::Check => text.push_all(b" "),
    }
}

/// A task with the objects that the terms stand for, where these are the values of the parameters.
fn push_task(
    text: &mut Text,
    c: &Compiled,
    values: &[u32],
    number: u32,
    terms: &[Term],
) -> Result<(), Memory>
    ensures pushed { OnOk result (text.new ≡ text.old ++ codes " "
        ++ spec.ground_task_word c.now (task number (values_of values.now terms.now))) }
{
    text.push_all(b" ")?;
    text.push_all(b"(")?;
    text.push_all(task_name(c, number))?;
    for term in terms {
        text.push_all(b" ")?;
        text.push_all(object_name(c, object_at(values, *term)))?;
    }
    text.push_all(b")")
}

fn task_name(c: &Compiled, number: u32) -> &[u8]
    ensures { result.now ≡ names.task_by c.now (slice_get c.now.hddl.tasks number) }
{
    match c.hddl.tasks.get(number as usize) {
        Some(schema) => written(c, schema.name),
        None => b"htn_top",
    }
}

fn method_name(c: &Compiled, number: u32) -> &[u8]
    ensures { result.now ≡ names.method_word c.now number }
{
    match c.methods.get(number as usize) {
        Some(plan) => written(c, plan.schema.name),
        None => b"",
    }
}

fn object_name(c: &Compiled, number: u32) -> &[u8]
    ensures { result.now ≡ spec.object_word c.now number }
{
    match c.hddl.objects.get(number as usize) {
        Some(object) => written(c, object.name),
        None => b"",
    }
}

/// A name as it is written.
fn written(c: &Compiled, name: Name) -> &[u8]
    ensures { result.now ≡ names.written c.now name.number }
{
    match c.hddl.names.text(name) {
        Some(word) => word,
        None => b"",
    }
}
