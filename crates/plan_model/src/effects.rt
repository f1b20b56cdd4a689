use crate::formulas::Formula;
use crate::terms::{Atom, Param};
use htn_base::{Boxed, List};

/// What an action does, as in PDDL 2.1, level 1. A condition of `When` is tested in the state before the action.
pub enum Effect {
    Add(Atom),
    Delete(Atom),
    And(List<Effect>),
    Forall(List<Param>, Boxed<Effect>),
    When(Formula, Boxed<Effect>),
}

impl Drop for Effect {
    fn drop(self) {
        match self {
            Effect::Add(_) => {}
            Effect::Delete(_) => {}
            Effect::And(_) => {}
            Effect::Forall(_, _) => {}
            Effect::When(_, _) => {}
        }
    }
}
