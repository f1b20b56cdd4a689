ghost use Rattle.std.specs.Prelude.{◌≡◌, IfOk};
ghost use Rattle.live_parts.specs.Pruned.{pruned};
ghost use Rattle.hddl_prune.specs.Chosen.{chosen, AreRising};
ghost use Rattle.hddl_prune.specs.Joined as spec;

use crate::chosen::Chosen;
use crate::copies::{copy_facts, copy_names, copy_predicates, copy_types};
use htn_base::{List, Memory, WordList};
use plan_model::{
    ActionSchema, Facts, Formula, Hddl, MethodSchema, Object, Predicate, TaskSchema, Types,
};
use std::alloc::Global;

/// The problem with what is kept alone, and with new numbers.
pub(crate) fn pruned_value(alloc: Global, h: &Hddl, kept: &Chosen) -> Result<Hddl, Memory>
    requires rising { AreRising (chosen kept.now) }
    ensures { IfOk result (λ value. value ≡ pruned (chosen kept.now) h.now) }
{
    let schemas = Schemas::of(alloc, h, kept)?;
    let ends = match Ends::of(alloc, h, kept) {
        Ok(ends) => ends,
        Err(memory) => {
            drop(schemas);
            return Err(memory);
        }
    };
    match Named::of(alloc, h) {
        Ok(named) => Ok(named.joined(h, schemas, ends)),
        Err(memory) => {
            drop(ends);
            drop(schemas);
            Err(memory)
        }
    }
}

/// What a problem says apart from its schemas.
struct Named {
    names: WordList,
    types: Types,
    objects: List<Object>,
    predicates: List<Predicate>,
}

impl Drop for Named {
    fn drop(self) {
        let Named {
            names: _,
            types: _,
            objects: _,
            predicates: _,
        } = self;
    }
}

impl Named {
    fn of(alloc: Global, h: &Hddl) -> Result<Named, Memory>
        ensures { IfOk result (λ named. named ≡ spec.named_of h.now) }
    {
        let names = copy_names(alloc, &h.names)?;
        let objects = h.objects.copy(alloc)?;
        let predicates = copy_predicates(alloc, &h.predicates)?;
        let types = copy_types(alloc, &h.types)?;
        Ok(Named {
            names,
            types,
            objects,
            predicates,
        })
    }

    /// The problem with these parts.
    fn joined(self, h: &Hddl, schemas: Schemas, ends: Ends) -> Hddl
        ensures { result ≡ spec.joined h.now self schemas ends }
    {
        let Named {
            names,
            types,
            objects,
            predicates,
        } = self;
        let (tasks, actions, methods) = schemas.lists();
        let (top, init, goal) = ends.parts();
        Hddl {
            names,
            domain: h.domain,
            problem: h.problem,
            types,
            objects,
            predicates,
            tasks,
            actions,
            methods,
            top,
            init,
            goal,
        }
    }
}

/// The kept tasks, actions and methods.
struct Schemas {
    tasks: List<TaskSchema>,
    actions: List<ActionSchema>,
    methods: List<MethodSchema>,
}

impl Drop for Schemas {
    fn drop(self) {
        let Schemas {
            tasks: _,
            actions: _,
            methods: _,
        } = self;
    }
}

impl Schemas {
    fn of(alloc: Global, h: &Hddl, kept: &Chosen) -> Result<Schemas, Memory>
        requires rising { AreRising (chosen kept.now) }
        ensures { IfOk result (λ schemas. schemas ≡ spec.schemas_of (chosen kept.now) h.now) }
    {
        let tasks = kept.task_list(alloc, h)?;
        let actions = kept.action_list(alloc, h)?;
        let methods = kept.method_list(alloc, h)?;
        Ok(Schemas {
            tasks,
            actions,
            methods,
        })
    }

    fn lists(self) -> (List<TaskSchema>, List<ActionSchema>, List<MethodSchema>)
        ensures { result ≡ (self.tasks, self.actions, self.methods) }
    {
        let Schemas {
            tasks,
            actions,
            methods,
        } = self;
        (tasks, actions, methods)
    }
}

/// The top method, the first atoms and the goal.
struct Ends {
    top: MethodSchema,
    init: Facts,
    goal: Formula,
}

impl Drop for Ends {
    fn drop(self) {
        let Ends {
            top: _,
            init: _,
            goal: _,
        } = self;
    }
}

impl Ends {
    fn of(alloc: Global, h: &Hddl, kept: &Chosen) -> Result<Ends, Memory>
        requires rising { AreRising (chosen kept.now) }
        ensures { IfOk result (λ ends. ends ≡ spec.ends_of (chosen kept.now) h.now) }
    {
        let init = copy_facts(alloc, &h.init)?;
        let goal = h.goal.copy(alloc)?;
        let top = kept.method(alloc, &h.top)?;
        Ok(Ends { top, init, goal })
    }

    fn parts(self) -> (MethodSchema, Facts, Formula)
        ensures { result ≡ (self.top, self.init, self.goal) }
    {
        let Ends { top, init, goal } = self;
        (top, init, goal)
    }
}
