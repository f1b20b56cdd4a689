ghost use Rattle.std.specs.Prelude.{◌≡◌, false};

use plan_model::{Formula, MethodPlan};

/// What is asked where a node is to stand in a gap: nothing, what is never so, the condition of an action with its objects, or that
/// a method can take values, of which some are known, with which a condition is true.
pub(crate) enum Demand<'a> {
    Nothing,
    Never,
    Action(&'a Formula, &'a [u32]),
    Method(&'a MethodPlan, Vec<Option<u32>>, Option<&'a Formula>),
}

impl Drop for Demand<'_> {
    fn drop(self) {
        match self {
            Demand::Nothing => {}
            Demand::Never => {}
            Demand::Action(_, _) => {}
            Demand::Method(_, _, _) => {}
        }
    }
}

impl Demand<'_> {
    ghost use Rattle.node_conditions.specs.Demands.{IsFree};

    /// Whether it depends on values.
    pub(crate) fn asks_for_values(&self) -> bool
        ensures { result ≡ false → IsFree self.now }
    {
        match self {
            Demand::Nothing => false,
            Demand::Never => false,
            Demand::Action(_, _) => false,
            Demand::Method(_, _, _) => true,
        }
    }
}
