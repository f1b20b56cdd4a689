use crate::effects::Effect;
use crate::formulas::Formula;
use crate::networks::{Child, Constraint, Guard, Pair};
use crate::terms::{Param, Term};
use htn_base::{List, Name};

pub struct Predicate {
    pub name: Name,
    pub params: List<Param>,
}

impl Drop for Predicate {
    fn drop(self) {
        let Predicate { name: _, params: _ } = self;
    }
}

/// An abstract task.
pub struct TaskSchema {
    pub name: Name,
    pub params: List<Param>,
}

impl Drop for TaskSchema {
    fn drop(self) {
        let TaskSchema { name: _, params: _ } = self;
    }
}

pub struct ActionSchema {
    pub name: Name,
    pub params: List<Param>,
    pub pre: Formula,
    pub eff: Effect,
}

impl Drop for ActionSchema {
    fn drop(self) {
        let ActionSchema {
            name: _,
            params: _,
            pre: _,
            eff: _,
        } = self;
    }
}

/// A method: the task that it decomposes, with arguments, and its network of subtasks.
///
/// `pairs` has, for an ordered network, each subtask before the next, and then every written pair in text order,
/// repeats too.
pub struct MethodSchema {
    pub name: Name,
    pub params: List<Param>,
    pub task: u32,
    pub task_args: List<Term>,
    pub pre: Formula,
    pub children: List<Child>,
    pub pairs: List<Pair>,
    pub constraints: List<Constraint>,
}

impl Drop for MethodSchema {
    fn drop(self) {
        let MethodSchema {
            name: _,
            params: _,
            task: _,
            task_args: _,
            pre: _,
            children: _,
            pairs: _,
            constraints: _,
        } = self;
    }
}

/// A method as it is encoded. Children are named by their places, the check first where there is one.
///
/// `checked`: the check stands among the children. `tested`: the precondition is tested where the method is applied.
/// `line`: the children in an order that the pairs allow. `heir`: the child that takes the task's own slot.
/// `copiers`: the children for which the order of what waits for the task is copied. `guards`: the types that the
/// subtasks' arguments must have beyond those of the parameters.
pub struct MethodPlan {
    pub schema: MethodSchema,
    pub checked: bool,
    pub tested: bool,
    pub line: List<u32>,
    pub heir: Option<u32>,
    pub copiers: List<u32>,
    pub guards: List<Guard>,
}

impl Drop for MethodPlan {
    fn drop(self) {
        let MethodPlan {
            schema: _,
            checked: _,
            tested: _,
            line: _,
            heir: _,
            copiers: _,
            guards: _,
        } = self;
    }
}
