//! What the laws of shown plans are said of.

ghost use Rattle.std.specs.Prelude.{ℕ};
ghost use Rattle.plan_model.specs.task_networks.Net.{Net};
ghost use Rattle.plan_model.specs.task_networks.Tree.{Address};
ghost use Rattle.schedules.specs.latest.Shown.{PlanWords, one_task, no_words};

use std::marker::Brand;

/// A task network with its top work, what plans say of it, and which node may stand in which gap.
pub trait Telling {
    ghost net: { Net };

    ghost words: { PlanWords net };

    ghost top: { net.Work };

    ghost allowed: { Address → ℕ → Type 0 };
}

impl Telling for Brand {
    ghost net = { one_task };

    ghost words = { no_words };

    ghost top = { tt };

    ghost allowed = { λ p i. Unit {0} };
}
