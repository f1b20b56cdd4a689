ghost use Rattle.std.specs.Prelude.{◌≡◌, ◌++◌, IfOk, OnOk};
ghost use Rattle.plan_model.specs.task_networks.Spelling.{numbers};
ghost use Rattle.slot_encoding.specs.EncodedActions.{differ};
ghost use Rattle.slot_encoder.specs.Encodings.{whole};

use crate::differing::push_differing;
use htn_base::{List, Memory, Name};
use plan_model::{ActionSchema, Effect, Formula, Param};
use std::alloc::Global;

/// An action of the printed problem. Its condition is a conjunction: of the parts `before`, of one part for each two of the
/// variables 1 to `spare`, that they differ, and of the parts `behind`. Those in the middle are as many as the square of
/// `spare`, so they are made by `whole` alone.
pub struct SplitAction {
    pub name: Name,
    pub params: List<Param>,
    pub before: List<Formula>,
    pub spare: u32,
    pub behind: List<Formula>,
    pub eff: Effect,
}

impl Drop for SplitAction {
    fn drop(self) {
        let SplitAction {
            name: _,
            params: _,
            before: _,
            spare: _,
            behind: _,
            eff: _,
        } = self;
    }
}

/// The lists of an action in the making: its parameters, the parts of its condition before and behind those that say that
/// the new slots differ, and its effects.
pub(crate) struct Parts {
    pub params: List<Param>,
    pub before: List<Formula>,
    pub behind: List<Formula>,
    pub effects: List<Effect>,
}

impl Drop for Parts {
    fn drop(self) {
        let Parts {
            params: _,
            before: _,
            behind: _,
            effects: _,
        } = self;
    }
}

impl Parts {
    ghost use Rattle.std.specs.Prelude.{[]};
    ghost use Rattle.slot_encoder.specs.Encodings.{split};

    /// No parts yet.
    pub(crate) fn new(alloc: Global) -> Parts
        ensures { result ≡ record { params = []; before = []; behind = []; effects = [] } }
    {
        Parts {
            params: List::new(alloc),
            before: List::new(alloc),
            behind: List::new(alloc),
            effects: List::new(alloc),
        }
    }

    /// The action of this name with these parts and so many new slots.
    pub(crate) fn into_action(self, name: Name, spare: u32) -> SplitAction
        ensures { result ≡ split name spare self }
    {
        let Parts {
            params,
            before,
            behind,
            effects,
        } = self;
        SplitAction {
            name,
            params,
            before,
            spare,
            behind,
            eff: Effect::And(effects),
        }
    }
}

impl SplitAction {
    /// The action with all its parts.
    pub fn whole(self, alloc: Global) -> Result<ActionSchema, Memory>
        ensures { IfOk result (λ a. a ≡ whole self) }
    {
        let SplitAction {
            name,
            params,
            mut before,
            spare,
            behind,
            eff,
        } = self;
        match push_others(alloc, spare, behind.as_slice(), &mut before) {
            Ok(()) => {
                drop(behind);
                Ok(ActionSchema {
                    name,
                    params,
                    pre: Formula::And(before),
                    eff,
                })
            }
            Err(memory) => {
                drop(params);
                drop(before);
                drop(behind);
                drop(eff);
                Err(memory)
            }
        }
    }
}

fn push_others(
    alloc: Global,
    spare: u32,
    behind: &[Formula],
    into: &mut List<Formula>,
) -> Result<(), Memory>
    ensures { OnOk result (into.new ≡ into.old ++ (differ (numbers 1 spare) ++ behind.now)) }
{
    push_differing(alloc, spare, into)?;
    for formula in behind {
        into.put(formula.copy(alloc))?;
    }
    Ok(())
}
