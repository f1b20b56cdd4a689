use ground_state::FailWhy;

/// What a list of steps is: a plan, more steps than are allowed, namely so many, or no plan: it fails at `step`, counted
/// from 1. Where the goal is false at the end, that counts as a further step.
#[derive(Clone, Copy)]
pub enum Checked {
    Plan,
    TooMany(usize),
    Fails { step: u32, why: FailWhy },
}
