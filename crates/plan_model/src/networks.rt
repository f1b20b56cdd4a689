ghost use Rattle.std.specs.Prelude.{◌≡◌, IfOk};

use crate::terms::Term;
use htn_base::{List, Memory, Name};
use std::alloc::Global;

/// What a subtask is: an abstract task, an action, or the check of the method's precondition.
#[derive(Clone, Copy, PartialEq)]
pub enum Head {
    Task(u32),
    Action(u32),
    Check,
}

/// A subtask of a network, with its id where one is written.
pub struct Child {
    pub id: Option<Name>,
    pub head: Head,
    pub args: List<Term>,
}

impl Drop for Child {
    fn drop(self) {
        let Child {
            id: _,
            head: _,
            args: _,
        } = self;
    }
}

impl Child {
    /// An equal subtask.
    pub fn copy(&self, alloc: Global) -> Result<Child, Memory>
        ensures equal { IfOk result (λ copy. copy ≡ self.now) }
    {
        Ok(Child {
            id: self.id,
            head: self.head,
            args: self.args.copy(alloc)?,
        })
    }
}

/// The subtask `first` stands before the subtask `then`, both by their places in the network.
#[derive(Clone, Copy, PartialEq)]
pub struct Pair {
    pub first: u32,
    pub then: u32,
}

/// The two terms are the same object, or where `equal` is false two objects.
#[derive(Clone, Copy)]
pub struct Constraint {
    pub equal: bool,
    pub left: Term,
    pub right: Term,
}

/// The term is an object of the type.
#[derive(Clone, Copy, PartialEq)]
pub struct Guard {
    pub ty: u32,
    pub term: Term,
}
