ghost use Rattle.std.specs.Prelude.{◌≡◌, IfOk};

use htn_base::{List, Memory};
use std::alloc::Global;

/// What stands at a node: an action, the check of a method, or a task with the method that decomposes it.
///
/// Numbers are places in a compiled value: of an action, of a task, where the top task has the number of the tasks, and of
/// a method, where the top method is 0. Arguments are the numbers of objects.
pub enum Label {
    Primitive {
        action: u32,
        args: List<u32>,
    },
    Check {
        method: u32,
        args: List<u32>,
    },
    Abstract {
        task: u32,
        args: List<u32>,
        method: u32,
        method_args: List<u32>,
    },
}

impl Drop for Label {
    fn drop(self) {
        match self {
            Label::Primitive { action: _, args: _ } => {}
            Label::Check { method: _, args: _ } => {}
            Label::Abstract {
                task: _,
                args: _,
                method: _,
                method_args: _,
            } => {}
        }
    }
}

impl Label {
    /// An equal label.
    pub fn copy(&self, alloc: Global) -> Result<Label, Memory>
        ensures equal { IfOk result (λ copy. copy ≡ self.now) }
    {
        match self {
            Label::Primitive { action, args } => Ok(Label::Primitive {
                action: *action,
                args: args.copy(alloc)?,
            }),
            Label::Check { method, args } => Ok(Label::Check {
                method: *method,
                args: args.copy(alloc)?,
            }),
            Label::Abstract {
                task,
                args,
                method,
                method_args,
            } => {
                let args = args.copy(alloc)?;
                Ok(Label::Abstract {
                    task: *task,
                    args,
                    method: *method,
                    method_args: method_args.copy(alloc)?,
                })
            }
        }
    }
}
