use plan_model::FailWhy;

/// What a list of ground actions is: a plan, or one that fails at `step`, counted from 1. Where the goal is false at
/// the end, that counts as a further step.
#[derive(Clone, Copy)]
pub enum Verdict {
    Plan,
    Fails { step: u32, why: FailWhy },
}
