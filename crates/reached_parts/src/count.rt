ghost use Rattle.std.specs.Prelude.{◌+◌, ◌≤◌, List, length, Contains, OnOk, IfErr};
ghost use Rattle.plan_model.specs.declared.terms.GroundAtom.{GroundAtom};
ghost use Rattle.plan_model.specs.declared.values.Compiled.{Compiled};
ghost use Rattle.plan_texts.specs.SoundlyCompiled.{IsSoundlyCompiled};
ghost use Rattle.reached_parts.specs.HowMany.{most_reached};
ghost use Rattle.reached_parts.specs.ReachedOf.{IsGivenUp};
ghost use Rattle.reached_parts.specs.Search.{AreSound};

use crate::reach_error::ReachError;
use crate::row_set::RowSet;

/// How many ground tasks, ground actions and ground methods may be reached together.
pub(crate) const MOST_REACHED: usize = 1_000_000;

/// `TooMany` exactly where more are listed than may be reached.
pub(crate) fn few_enough(
    tasks: &RowSet,
    actions: &RowSet,
    methods: &RowSet,
) -> Result<(), ReachError>
    ensures few { OnOk result (length tasks.now + length actions.now + length methods.now ≤ most_reached) }
    ensures refused { (c : Compiled) (atoms : List GroundAtom) → IsSoundlyCompiled c
        → AreSound c tasks.now actions.now methods.now (Contains atoms) → IfErr result (IsGivenUp c) }
{
    let works = tasks.len().saturating_add(actions.len());
    if works.saturating_add(methods.len()) > MOST_REACHED {
        return Err(ReachError::TooMany);
    }
    Ok(())
}
