ghost use Rattle.std.specs.Prelude.{◌≡◌, IfOk, OnOk};
ghost use Rattle.name_binding.specs.Spots.{noted};
ghost use Rattle.hddl_bind.specs.DomainSchemas as spec;
ghost use Rattle.hddl_bind.specs.WholeDomains as domains;

use crate::actions::actions_of;
use crate::bound_domain::BoundDomain;
use crate::callables::Callables;
use crate::domain_names::DomainNames;
use crate::heads::{predicates_of, tasks_of};
use crate::methods::methods_of;
use hddl_reader::RawDomain;
use htn_base::{List, Memory, Name};
use name_binding::{Faults, Known, TypeTable, objects_of};
use plan_model::{ActionSchema, MethodSchema, Object, Predicate, TaskSchema, Types};
use std::alloc::Global;

/// All that a domain declares but its types. The objects are its constants.
pub struct DomainSchemas {
    pub objects: List<Object>,
    pub predicates: List<Predicate>,
    pub tasks: List<TaskSchema>,
    pub actions: List<ActionSchema>,
    pub methods: List<MethodSchema>,
}

impl Drop for DomainSchemas {
    fn drop(self) {
        let DomainSchemas {
            objects: _,
            predicates: _,
            tasks: _,
            actions: _,
            methods: _,
        } = self;
    }
}

/// What has parameters alone: constants, predicates and tasks.
struct Typed {
    objects: List<Object>,
    predicates: List<Predicate>,
    tasks: List<TaskSchema>,
}

impl Drop for Typed {
    fn drop(self) {
        let Typed {
            objects: _,
            predicates: _,
            tasks: _,
        } = self;
    }
}

/// All that a domain declares but its types. Faults: 10 in a network, 11, 13 to 17 and 19 to 21.
pub fn schemas_of(
    alloc: Global,
    known: &Known,
    callables: &Callables,
    d: &RawDomain,
    faults: &mut Faults,
) -> Result<DomainSchemas, Memory>
    ensures bound { IfOk result
        (λ bound. bound ≡ spec.schemas_bound known.now callables.now d.now) }
    ensures faults { OnOk result (spec.AreSchemasNoted known.now callables.now d.now
        faults.old.least faults.new.least) }
{
    let typed = typed_of(alloc, &known.types, d, faults)?;
    let actions = actions_of(alloc, known, d.actions.as_slice(), faults)?;
    let methods = methods_of(alloc, known, callables, d.methods.as_slice(), faults)?;
    Ok(typed.together(actions, methods))
}

fn typed_of(
    alloc: Global,
    types: &TypeTable,
    d: &RawDomain,
    faults: &mut Faults,
) -> Result<Typed, Memory>
    ensures bound { IfOk result (λ typed. typed ≡ spec.typed_bound types.now d.now) }
    ensures faults { OnOk result
        (faults.new.least ≡ noted faults.old.least (spec.typed_faults types.now d.now)) }
{
    let objects = objects_of(alloc, types, &d.constants, true, faults)?;
    let predicates = predicates_of(alloc, types, d.predicates.as_slice(), faults)?;
    let tasks = tasks_of(alloc, types, d.tasks.as_slice(), faults)?;
    Ok(Typed {
        objects,
        predicates,
        tasks,
    })
}

impl DomainSchemas {
    /// A domain with its names bound, of these types.
    pub(crate) fn together(self, domain: Name, types: Types, names: DomainNames) -> BoundDomain
        ensures together { result ≡ domains.with_schemas domain types self names }
    {
        let DomainSchemas {
            objects,
            predicates,
            tasks,
            actions,
            methods,
        } = self;
        BoundDomain {
            domain,
            types,
            objects,
            predicates,
            tasks,
            actions,
            methods,
            names,
        }
    }
}

impl Typed {
    /// All that a domain declares but its types.
    fn together(self, actions: List<ActionSchema>, methods: List<MethodSchema>) -> DomainSchemas
        ensures together { result ≡ spec.together self actions methods }
    {
        let Typed {
            objects,
            predicates,
            tasks,
        } = self;
        DomainSchemas {
            objects,
            predicates,
            tasks,
            actions,
            methods,
        }
    }
}
