ghost use Rattle.std.specs.Prelude.{◌≡◌, IfOk, OnOk};
ghost use Rattle.name_binding.specs.Entered.{variables_of};
ghost use Rattle.name_binding.specs.Spots.{noted};
ghost use Rattle.hddl_bind.specs.Actions.{action_bound, actions_bound, action_faults, actions_faults};

use gd_reader::RawParam;
use hddl_reader::RawAction;
use htn_base::{List, Memory};
use name_binding::{Faults, Known, Variables, effect_of, formula_of, params_of};
use plan_model::ActionSchema;
use std::alloc::Global;

/// The actions of a domain, in the same order. An action's parameters are in force in its condition and its effect. Faults: 11, 13
/// and 15 to 17 where its names stand for nothing.
pub fn actions_of(
    alloc: Global,
    known: &Known,
    actions: &[RawAction],
    faults: &mut Faults,
) -> Result<List<ActionSchema>, Memory>
    ensures bound { IfOk result (λ bound. bound ≡ actions_bound known.now actions.now) }
    ensures faults { OnOk result
        (faults.new.least ≡ noted faults.old.least (actions_faults known.now actions.now)) }
{
    let mut scope = Variables::new(alloc);
    let mut bound = List::new(alloc);
    for action in actions {
        bound.put(action_of(alloc, known, &mut scope, action, faults))?;
    }
    Ok(bound)
}

/// An action. What `scope` holds is of no matter: it is lent to action after action, and is emptied first.
fn action_of(
    alloc: Global,
    known: &Known,
    scope: &mut Variables,
    action: &RawAction,
    faults: &mut Faults,
) -> Result<ActionSchema, Memory>
    ensures bound { IfOk result (λ bound. bound ≡ action_bound known.now action.now) }
    ensures faults { OnOk result
        (faults.new.least ≡ noted faults.old.least (action_faults known.now action.now)) }
{
    enter_alone(scope, action.head.params.as_slice())?;
    let params = params_of(alloc, &known.types, &action.head.params, faults)?;
    let pre = formula_of(alloc, known, scope, &action.pre, faults)?;
    let eff = effect_of(alloc, known, scope, &action.eff, faults)?;
    Ok(ActionSchema {
        name: action.head.name.name,
        params,
        pre,
        eff,
    })
}

/// Puts these variables in force, and no others.
pub(crate) fn enter_alone(scope: &mut Variables, params: &[RawParam]) -> Result<(), Memory>
    ensures entered { OnOk result (scope.new ≡ variables_of params.now) }
{
    scope.leave(0);
    scope.enter_all(params)
}
