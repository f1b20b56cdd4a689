//! What further laws are said of.

ghost use Rattle.std.specs.Prelude.{ℕ, List};
ghost use Rattle.plan_model.specs.task_networks.Net.{Net, one_action};
ghost use Rattle.plan_model.specs.task_networks.Tree.{Label};
ghost use Rattle.plan_model.specs.task_networks.Spelling.{Act};
ghost use Rattle.slot_machine.specs.Machine.{SlotState, start, end_of, May};

use std::marker::Brand;

/// Another machine that takes acts, told by what it takes after which acts, and by what its state says of the slots then.
pub trait OtherMachine {
    ghost net: { Net };

    ghost read: { List (Act net) → SlotState net };

    ghost takes: { List (Act net) → Act net → Type 0 };
}

impl OtherMachine for Brand {
    ghost net = { one_action };

    ghost read = { end_of one_action (start one_action 1 tt) };

    ghost takes = { λ acts a. May one_action (end_of one_action (start one_action 1 tt) acts) a };
}

/// Conditions on states, which are sets of atoms: what a label asks of the state before it, and which state it leads to.
pub trait Execution {
    ghost net: { Net };

    ghost atom: { Type 0 };

    ghost allows: { (atom → Type 0) → Label net → Type 0 };

    ghost next: { (atom → Type 0) → Label net → atom → Type 0 };

    ghost first: { atom → Type 0 };

    ghost goal: { (atom → Type 0) → Type 0 };
}

impl Execution for Brand {
    ghost net = { one_action };

    ghost atom = { ℕ };

    ghost allows = { λ s l. Unit {0} };

    ghost next = { λ s l. s };

    ghost first = { λ x. Unit {0} };

    ghost goal = { λ s. Unit {0} };
}
