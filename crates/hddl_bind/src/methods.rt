ghost use Rattle.std.specs.Prelude.{◌≡◌, IfOk, OnOk};
ghost use Rattle.name_binding.specs.Spots.{noted};
ghost use Rattle.hddl_bind.specs.Actions.{scope_of};
ghost use Rattle.hddl_bind.specs.Methods as spec;

use crate::actions::enter_alone;
use crate::callables::Callables;
use crate::calls::task_of_method;
use crate::networks::{BoundNet, network_of};
use hddl_reader::RawMethod;
use htn_base::{List, Memory, Name};
use name_binding::{Faults, Known, Places, Variables, formula_of, params_of, terms_of};
use plan_model::{Formula, MethodSchema, Param, Term};
use std::alloc::Global;

/// What stands in front of a method's network.
pub(crate) struct Front {
    pub params: List<Param>,
    pub task: u32,
    pub task_args: List<Term>,
    pub pre: Formula,
}

impl Drop for Front {
    fn drop(self) {
        let Front {
            params: _,
            task: _,
            task_args: _,
            pre: _,
        } = self;
    }
}

/// The methods of a domain, in the same order. A method's parameters are in force in all of it. Faults: 11, 13 to 17 where its names
/// stand for nothing, and 10, 19, 20 and 21 in its network.
pub fn methods_of(
    alloc: Global,
    known: &Known,
    callables: &Callables,
    methods: &[RawMethod],
    faults: &mut Faults,
) -> Result<List<MethodSchema>, Memory>
    ensures bound { IfOk result
        (λ bound. bound ≡ spec.methods_bound known.now callables.now methods.now) }
    ensures faults { OnOk result (spec.AreMethodsNoted known.now callables.now methods.now
        faults.old.least faults.new.least) }
{
    let mut scope = Variables::new(alloc);
    let mut ids = Places::new(alloc);
    let mut bound = List::new(alloc);
    for method in methods {
        bound.put(method_of(
            alloc, known, callables, &mut scope, &mut ids, method, faults,
        ))?;
    }
    Ok(bound)
}

/// A method. What `scope` and `ids` hold is of no matter: they are lent to method after method, and are emptied first.
fn method_of(
    alloc: Global,
    known: &Known,
    callables: &Callables,
    scope: &mut Variables,
    ids: &mut Places,
    method: &RawMethod,
    faults: &mut Faults,
) -> Result<MethodSchema, Memory>
    ensures bound { IfOk result
        (λ bound. bound ≡ spec.method_bound known.now callables.now method.now) }
    ensures faults { OnOk result (spec.IsMethodNoted known.now callables.now method.now
        faults.old.least faults.new.least) }
{
    enter_alone(scope, method.head.params.as_slice())?;
    let front = front_of(alloc, known, callables, scope, method, faults)?;
    let net = network_of(
        alloc,
        callables,
        &known.objects,
        scope,
        ids,
        &method.net,
        faults,
    )?;
    Ok(front.joined(method.head.name.name, net))
}

/// What stands in front of the network of a method whose parameters are in force.
fn front_of(
    alloc: Global,
    known: &Known,
    callables: &Callables,
    scope: &mut Variables,
    method: &RawMethod,
    faults: &mut Faults,
) -> Result<Front, Memory>
    requires entered { scope.old ≡ scope_of method.now.head }
    ensures bound { IfOk result
        (λ front. front ≡ spec.front_bound known.now callables.now method.now) }
    ensures faults { OnOk result (faults.new.least
        ≡ noted faults.old.least (spec.front_faults known.now callables.now method.now)) }
    ensures kept { scope.new ≡ scope.old }
{
    let params = params_of(alloc, &known.types, &method.head.params, faults)?;
    let task = task_of_method(callables, &method.task, faults);
    let task_args = terms_of(alloc, &known.objects, scope, &method.task.args, faults)?;
    let pre = formula_of(alloc, known, scope, &method.pre, faults)?;
    Ok(Front {
        params,
        task,
        task_args,
        pre,
    })
}

impl Front {
    /// A method of its parts.
    pub(crate) fn joined(self, name: Name, net: BoundNet) -> MethodSchema
        ensures joined { result ≡ spec.joined name self net }
    {
        let Front {
            params,
            task,
            task_args,
            pre,
        } = self;
        let (children, pairs, constraints) = net.into_parts();
        MethodSchema {
            name,
            params,
            task,
            task_args,
            pre,
            children,
            pairs,
            constraints,
        }
    }
}
