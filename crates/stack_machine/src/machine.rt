//! What the laws are said of.

ghost use Rattle.std.specs.Prelude.{List};
ghost use Rattle.plan_model.specs.task_networks.Net.{Net, one_action};
ghost use Rattle.plan_model.specs.task_networks.Spelling.{Act};
ghost use Rattle.stack_machine.specs.StackMachine.{StackState, first_stack, end_of_stack, MayAtTip};

use std::marker::Brand;

/// Another machine of a stack, told by what it takes after which acts, and by what its state says of the cells then.
pub trait OtherStack {
    ghost net: { Net };

    ghost read: { List (Act net) → StackState net };

    ghost takes: { List (Act net) → Act net → Type 0 };
}

impl OtherStack for Brand {
    ghost net = { one_action };

    ghost read = { end_of_stack one_action (first_stack one_action tt) };

    ghost takes = { λ acts a. MayAtTip one_action 1 (end_of_stack one_action (first_stack one_action tt) acts) a };
}
