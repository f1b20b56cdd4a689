ghost use Rattle.std.specs.Prelude.{List as Items, ◌≡◌, ◌++◌, ◌∷◌, [], length, slice_index, IfOk};
ghost use Rattle.plan_model.specs.declared.terms.Term.{Term as a_term};
ghost use Rattle.node_conditions.specs.Taken as spec;

use htn_base::Memory;
use plan_model::{Child, Head, MethodPlan, Term};
use std::alloc::Global;

/// What is known of a method's values: those of the parameters that stand in its task or in a subtask, and none for the others.
pub(crate) fn known_of(
    alloc: Global,
    plan: &MethodPlan,
    values: &[u32],
) -> Result<Vec<Option<u32>>, Memory>
    ensures as_many { IfOk result (λ known. length known.items ≡ length plan.now.schema.params) }
    ensures known { IfOk result (λ known. spec.IsKnown values.now (spec.said plan.now) known.items) }
{
    let mut known = vec![in alloc; None; plan.schema.params.len()]?;
    note(
        plan.schema.task_args.as_slice(),
        values,
        known.as_mut_slice(),
    );
    note_children(
        plan.schema.children.as_slice(),
        values,
        known.as_mut_slice(),
    );
    Ok(known)
}

/// Notes the values of the variables of the subtasks.
fn note_children(children: &[Child], values: &[u32], known: &mut [Option<u32>])
    ensures { (done : Items a_term) → spec.IsKnown values.now done known.old
        → spec.IsKnown values.now (done ++ spec.said_by children.now) known.new }
{
    for child in children {
        note_child(child, values, known);
    }
}

/// Notes the values of the variables of a subtask, where it is no check.
fn note_child(child: &Child, values: &[u32], known: &mut [Option<u32>])
    ensures { (done : Items a_term) → spec.IsKnown values.now done known.old
        → spec.IsKnown values.now (done ++ spec.said_of child.now.head child.now.args) known.new }
{
    match child.head {
        Head::Task(_) => note(child.args.as_slice(), values, known),
        Head::Action(_) => note(child.args.as_slice(), values, known),
        Head::Check => {}
    }
}

/// Notes the values of the variables among the terms.
fn note(terms: &[Term], values: &[u32], known: &mut [Option<u32>])
    ensures { (done : Items a_term) → spec.IsKnown values.now done known.old → spec.IsKnown values.now (done ++ terms.now) known.new }
{
    for term in terms {
        note_one(*term, values, known);
    }
}

/// Notes the value of the term, where it is a variable.
fn note_one(term: Term, values: &[u32], known: &mut [Option<u32>])
    ensures { (done : Items a_term) → spec.IsKnown values.now done known.old → spec.IsKnown values.now (done ++ term ∷ []) known.new }
{
    if let Term::Var(variable) = term {
        let place = variable as usize;
        if place < known.len() {
            known[place] = Some(value_at(values, place));
        }
    }
}

/// The value at a place. One that isn't there is object 0.
fn value_at(values: &[u32], place: usize) -> u32
    ensures { result ≡ slice_index values.now place }
{
    match values.get(place) {
        Some(value) => *value,
        None => 0,
    }
}
