ghost use Rattle.std.specs.Prelude.{◌≡◌};

use crate::facts::Facts;
use crate::formulas::Formula;
use crate::schemas::{ActionSchema, MethodPlan, MethodSchema, Predicate, TaskSchema};
use crate::types::{Object, Types};
use htn_base::{List, Name, WordList};

/// A hierarchical problem: what an HDDL domain and an HDDL problem say. `top` is the method of the problem's network,
/// and its task is the top task, of number `tasks.len()`.
pub struct Hddl {
    pub names: WordList,
    pub domain: Name,
    pub problem: Name,
    pub types: Types,
    pub objects: List<Object>,
    pub predicates: List<Predicate>,
    pub tasks: List<TaskSchema>,
    pub actions: List<ActionSchema>,
    pub methods: List<MethodSchema>,
    pub top: MethodSchema,
    pub init: Facts,
    pub goal: Formula,
}

impl Drop for Hddl {
    fn drop(self) {
        let Hddl {
            names: _,
            domain: _,
            problem: _,
            types: _,
            objects: _,
            predicates: _,
            tasks: _,
            actions: _,
            methods: _,
            top: _,
            init: _,
            goal: _,
        } = self;
    }
}

impl Hddl {
    ghost use Rattle.plan_model.specs.Values.{without_tasks};

    /// What it says without its tasks and methods.
    pub fn without_tasks(self) -> Pddl
        ensures { result ≡ without_tasks self }
    {
        let Hddl {
            names,
            domain,
            problem,
            types,
            objects,
            predicates,
            tasks,
            actions,
            methods,
            top,
            init,
            goal,
        } = self;
        drop(tasks);
        drop(methods);
        drop(top);
        Pddl {
            names,
            domain,
            problem,
            types,
            objects,
            predicates,
            actions,
            init,
            goal,
        }
    }
}

/// A hierarchical problem and its methods as they are encoded: the top method at place 0, and method k of the source
/// at place k + 1.
pub struct Compiled {
    pub hddl: Hddl,
    pub methods: List<MethodPlan>,
}

impl Drop for Compiled {
    fn drop(self) {
        let Compiled {
            hddl: _,
            methods: _,
        } = self;
    }
}

/// A classical problem: what a PDDL domain and a PDDL problem say.
pub struct Pddl {
    pub names: WordList,
    pub domain: Name,
    pub problem: Name,
    pub types: Types,
    pub objects: List<Object>,
    pub predicates: List<Predicate>,
    pub actions: List<ActionSchema>,
    pub init: Facts,
    pub goal: Formula,
}

impl Drop for Pddl {
    fn drop(self) {
        let Pddl {
            names: _,
            domain: _,
            problem: _,
            types: _,
            objects: _,
            predicates: _,
            actions: _,
            init: _,
            goal: _,
        } = self;
    }
}
