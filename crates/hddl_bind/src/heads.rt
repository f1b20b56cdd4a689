ghost use Rattle.std.specs.Prelude.{◌≡◌, IfOk, OnOk};
ghost use Rattle.name_binding.specs.Spots.{noted};
ghost use Rattle.hddl_bind.specs.Schemas.{predicates_bound, tasks_bound, heads_faults};

use hddl_reader::RawHead;
use htn_base::{List, Memory};
use name_binding::{Faults, TypeTable, params_of};
use plan_model::{Predicate, TaskSchema};
use std::alloc::Global;

/// The predicates of these heads, in the same order. A name that no type has is a fault of code 11.
pub fn predicates_of(
    alloc: Global,
    types: &TypeTable,
    heads: &[RawHead],
    faults: &mut Faults,
) -> Result<List<Predicate>, Memory>
    ensures bound { IfOk result (λ bound. bound ≡ predicates_bound types.now heads.now) }
    ensures faults { OnOk result
        (faults.new.least ≡ noted faults.old.least (heads_faults types.now heads.now)) }
{
    let mut bound = List::new(alloc);
    for head in heads {
        let params = params_of(alloc, types, &head.params, faults)?;
        bound.push(Predicate {
            name: head.name.name,
            params,
        })?;
    }
    Ok(bound)
}

/// The tasks of these heads, in the same order. A name that no type has is a fault of code 11.
pub fn tasks_of(
    alloc: Global,
    types: &TypeTable,
    heads: &[RawHead],
    faults: &mut Faults,
) -> Result<List<TaskSchema>, Memory>
    ensures bound { IfOk result (λ bound. bound ≡ tasks_bound types.now heads.now) }
    ensures faults { OnOk result
        (faults.new.least ≡ noted faults.old.least (heads_faults types.now heads.now)) }
{
    let mut bound = List::new(alloc);
    for head in heads {
        let params = params_of(alloc, types, &head.params, faults)?;
        bound.push(TaskSchema {
            name: head.name.name,
            params,
        })?;
    }
    Ok(bound)
}
