//! What the laws are said of.

ghost use Rattle.std.specs.Prelude.{ℕ, List, []};
ghost use Rattle.plan_model.specs.task_networks.Net.{Net, one_action};

use std::marker::Brand;

/// A task network. It has no code: whoever calls a law passes `Brand` and a value that the network is made of,
/// and picks the network in the proof, as `record { net = network a.of.now }`.
pub trait Network {
    ghost net: { Net };
}

impl Network for Brand {
    ghost net = { one_action };
}

/// A ground network and the network of its schemas.
pub trait Lifting {
    ghost net: { Net };

    ghost lifted: { Net };

    ghost work: { net.Work → lifted.Work };

    ghost method: { net.Method → lifted.Method };
}

impl Lifting for Brand {
    ghost net = { one_action };

    ghost lifted = { one_action };

    ghost work = { λ w. w };

    ghost method = { λ m. m };
}

/// The edges between tasks, in their order: where each begins and ends, and which are bad.
pub trait Edges {
    ghost task: { Type 0 };

    ghost edge: { Type 0 };

    ghost source: { edge → task };

    ghost target: { edge → task };

    ghost edges: { List edge };

    ghost bad: { edge → Type 0 };
}

impl Edges for Brand {
    ghost task = { ℕ };

    ghost edge = { ℕ };

    ghost source = { λ e. e };

    ghost target = { λ e. e };

    ghost edges = { [] };

    ghost bad = { λ e. Unit {0} };
}
