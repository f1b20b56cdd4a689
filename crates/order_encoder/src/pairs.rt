ghost use Rattle.std.specs.Prelude.{◌≡◌, IfOk};
ghost use Rattle.order_encoder.specs.NamedOrders as of;

use crate::order_names::OrderNames;
use htn_base::{List, Memory};
use plan_model::{Atom, Param, Term};
use std::alloc::Global;

/// The atom that what is at slot `first` comes before what is at slot `then`.
pub(crate) fn before(alloc: Global, n: &OrderNames, first: Term, then: Term) -> Result<Atom, Memory>
    ensures { IfOk result (λ atom. atom ≡ of.pair n.now first then) }
{
    let mut args = List::new(alloc);
    args.push(first)?;
    args.push(then)?;
    Ok(Atom {
        predicate: n.before,
        args,
    })
}

/// The slot that a quantifier brings.
pub(crate) fn any_slot_params(alloc: Global, n: &OrderNames) -> Result<List<Param>, Memory>
    ensures { IfOk result (λ params. params ≡ of.quantified n.now) }
{
    let mut params = List::new(alloc);
    params.push(Param {
        name: n.x,
        ty: n.slot_type,
    })?;
    Ok(params)
}
