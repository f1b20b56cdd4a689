//! What the laws are said of.

ghost use Rattle.std.specs.Prelude.{ℕ, List};
ghost use Rattle.plan_model.specs.task_networks.Net.{Net, one_action};
ghost use Rattle.plan_model.specs.task_networks.Tree.{Label};
ghost use Rattle.plan_model.specs.task_networks.Spelling.{Act};
ghost use Rattle.slot_machine.specs.Machine.{SlotState, start, end_of, May};
ghost use Rattle.schedules.specs.ruled.SlotRule.{SeesFree};

use std::marker::Brand;

/// A rule that picks acts, for a number of slots and a top work: which act may come after which.
pub trait Picking {
    ghost net: { Net };

    ghost picks: { ℕ → net.Work → List (Act net) → Act net → Type 0 };
}

impl Picking for Brand {
    ghost net = { one_action };

    ghost picks = { λ b top acts a. Unit {0} };
}

/// A machine that takes what a rule picks, told by what it takes after which acts, and by what is known of its state then.
pub trait NarrowedMachine {
    ghost net: { Net };

    ghost picks: { ℕ → net.Work → List (Act net) → Act net → Type 0 };

    ghost fits: { List (Act net) → Type 0 };

    ghost takes: { List (Act net) → Act net → Type 0 };
}

impl NarrowedMachine for Brand {
    ghost net = { one_action };

    ghost picks = { λ b top acts a. Unit {0} };

    ghost fits = { λ acts. Unit {0} };

    ghost takes = { λ acts a. May one_action (end_of one_action (start one_action 1 tt) acts) a };
}

/// A rule, and conditions on states, which are sets of atoms.
pub trait PickedExecution {
    ghost net: { Net };

    ghost picks: { ℕ → net.Work → List (Act net) → Act net → Type 0 };

    ghost atom: { Type 0 };

    ghost allows: { (atom → Type 0) → Label net → Type 0 };

    ghost next: { (atom → Type 0) → Label net → atom → Type 0 };

    ghost first: { atom → Type 0 };

    ghost goal: { (atom → Type 0) → Type 0 };
}

impl PickedExecution for Brand {
    ghost net = { one_action };

    ghost picks = { λ b top acts a. Unit {0} };

    ghost atom = { ℕ };

    ghost allows = { λ s l. Unit {0} };

    ghost next = { λ s l. s };

    ghost first = { λ x. Unit {0} };

    ghost goal = { λ s. Unit {0} };
}

/// A rule for the new slots of a method, which sees of the slots only which are free.
pub trait SlotRule {
    ghost net: { Net };

    ghost rule: { (ℕ → Type 0) → ℕ → net.Method → List ℕ → Type 0 };

    ghost sees: { SeesFree net rule };
}

impl SlotRule for Brand {
    ghost net = { one_action };

    ghost rule = { λ free h m new. Unit {0} };

    ghost sees = { λ free other h m new same r. r };
}

/// A rule, and a machine that it is laid over.
pub trait RuledMachine {
    ghost net: { Net };

    ghost rule: { (ℕ → Type 0) → ℕ → net.Method → List ℕ → Type 0 };

    ghost sees: { SeesFree net rule };

    ghost read: { List (Act net) → SlotState net };

    ghost takes: { List (Act net) → Act net → Type 0 };
}

impl RuledMachine for Brand {
    ghost net = { one_action };

    ghost rule = { λ free h m new. Unit {0} };

    ghost sees = { λ free other h m new same r. r };

    ghost read = { end_of one_action (start one_action 1 tt) };

    ghost takes = { λ acts a. May one_action (end_of one_action (start one_action 1 tt) acts) a };
}
