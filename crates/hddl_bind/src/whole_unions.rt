ghost use Rattle.std.specs.Prelude.{◌≡◌, ◌++◌, IfOk, OnOk};
ghost use Rattle.hddl_bind.specs.WholeUnions as spec;

use hddl_reader::{RawAction, RawDomain, RawHead, RawMethod, RawProblem};
use htn_base::Memory;
use name_binding::{Either, TypeTable, put_unions, put_unions_of_effect, put_unions_of_formula};
use std::alloc::Global;

/// The unions that a domain writes. A constant has one type.
pub(crate) fn unions_of_domain(
    alloc: Global,
    types: &TypeTable,
    d: &RawDomain,
) -> Result<Vec<Either>, Memory>
    ensures unions { IfOk result (λ found. found.items ≡ spec.domain_unions types.now d.now) }
{
    let mut found = Vec::new(alloc);
    put_unions_of_heads(alloc, types, d.predicates.as_slice(), &mut found)?;
    put_unions_of_heads(alloc, types, d.tasks.as_slice(), &mut found)?;
    put_unions_of_actions(alloc, types, d.actions.as_slice(), &mut found)?;
    put_unions_of_methods(alloc, types, d.methods.as_slice(), &mut found)?;
    Ok(found)
}

/// The unions that a problem writes. An object has one type.
pub(crate) fn unions_of_problem(
    alloc: Global,
    types: &TypeTable,
    p: &RawProblem,
) -> Result<Vec<Either>, Memory>
    ensures unions { IfOk result (λ found. found.items ≡ spec.problem_unions types.now p.now) }
{
    let mut found = Vec::new(alloc);
    put_unions(alloc, types, &p.params, &mut found)?;
    put_unions_of_formula(alloc, types, &p.goal, &mut found)?;
    Ok(found)
}

fn put_unions_of_heads(
    alloc: Global,
    types: &TypeTable,
    heads: &[RawHead],
    into: &mut Vec<Either>,
) -> Result<(), Memory>
    ensures put { OnOk result
        (into.new.items ≡ into.old.items ++ spec.heads_unions types.now heads.now) }
{
    for head in heads {
        put_unions(alloc, types, &head.params, into)?;
    }
    Ok(())
}

fn put_unions_of_actions(
    alloc: Global,
    types: &TypeTable,
    actions: &[RawAction],
    into: &mut Vec<Either>,
) -> Result<(), Memory>
    ensures put { OnOk result
        (into.new.items ≡ into.old.items ++ spec.actions_unions types.now actions.now) }
{
    for action in actions {
        put_unions(alloc, types, &action.head.params, into)?;
        put_unions_of_formula(alloc, types, &action.pre, into)?;
        put_unions_of_effect(alloc, types, &action.eff, into)?;
    }
    Ok(())
}

fn put_unions_of_methods(
    alloc: Global,
    types: &TypeTable,
    methods: &[RawMethod],
    into: &mut Vec<Either>,
) -> Result<(), Memory>
    ensures put { OnOk result
        (into.new.items ≡ into.old.items ++ spec.methods_unions types.now methods.now) }
{
    for method in methods {
        put_unions_of_method(alloc, types, method, into)?;
    }
    Ok(())
}

fn put_unions_of_method(
    alloc: Global,
    types: &TypeTable,
    method: &RawMethod,
    into: &mut Vec<Either>,
) -> Result<(), Memory>
    ensures put { OnOk result
        (into.new.items ≡ into.old.items ++ spec.method_unions types.now method.now) }
{
    put_unions(alloc, types, &method.head.params, into)?;
    put_unions_of_formula(alloc, types, &method.pre, into)
}
