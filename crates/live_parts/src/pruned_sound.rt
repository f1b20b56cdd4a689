//! Laws: a pruned problem is sound and ordered, where the problem is.

ghost use Rattle.plan_model.specs.plan_meaning.Laws.{AreOrdered};
ghost use Rattle.plan_texts.specs.SoundProblem.{IsSoundProblem};
ghost use Rattle.live_parts.specs.Kept.{IsNumbered};
ghost use Rattle.live_parts.specs.PrunedSound.{PrunedIsSound, PrunedIsOrdered};

use plan_model::Hddl;

/// In a sound problem all numbers are in range.
pub fn sound_is_numbered(problem: &Hddl)
    requires sound { IsSoundProblem problem.now }
    ensures { IsNumbered problem.now }
{}

/// What is kept of a sound problem is a sound problem, with orders without cycles where these had none.
pub fn pruned_is_sound(problem: &Hddl)
    requires sound { IsSoundProblem problem.now }
    requires ordered { AreOrdered problem.now }
    ensures sound { PrunedIsSound problem.now }
    ensures ordered { PrunedIsOrdered problem.now }
{}
