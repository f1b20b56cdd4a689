ghost use Rattle.std.specs.Prelude.{◌≡◌};
ghost use Rattle.hddl_texts.specs.Texts.{hddl_of};

use htn_base::List;
use plan_model::{Formula, Hddl, MethodSchema, Pddl, TaskSchema};
use std::alloc::Global;
use std::mem;

/// A problem as it is printed: what it says without its tasks and methods, which the printer of PDDL values
/// puts, and these.
pub struct PrintedProblem {
    pub pddl: Pddl,
    pub tasks: List<TaskSchema>,
    pub methods: List<MethodSchema>,
    pub top: MethodSchema,
}

impl Drop for PrintedProblem {
    fn drop(self) {
        let PrintedProblem {
            pddl: _,
            tasks: _,
            methods: _,
            top: _,
        } = self;
    }
}

impl PrintedProblem {
    /// The problem, taken apart. Nothing is copied.
    pub fn of(alloc: Global, h: Hddl) -> PrintedProblem
        ensures same { hddl_of result ≡ h }
    {
        let mut h = h;
        let tasks = mem::replace(&mut h.tasks, List::new(alloc));
        let methods = mem::replace(&mut h.methods, List::new(alloc));
        let nothing = MethodSchema {
            name: h.top.name,
            params: List::new(alloc),
            task: 0,
            task_args: List::new(alloc),
            pre: Formula::And(List::new(alloc)),
            children: List::new(alloc),
            pairs: List::new(alloc),
            constraints: List::new(alloc),
        };
        let top = mem::replace(&mut h.top, nothing);
        PrintedProblem {
            pddl: h.without_tasks(),
            tasks,
            methods,
            top,
        }
    }
}
