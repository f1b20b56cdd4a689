ghost use Rattle.std.specs.Prelude.{IfOk, IfErr};
ghost use Rattle.plan_model.specs.Parts.{AreListed};
ghost use Rattle.plan_texts.specs.SoundProblem.{IsSoundProblem};
ghost use Rattle.live_parts.specs.Live.{AreLive};
ghost use Rattle.hddl_prune.specs.Pruning.{IsPruned, HasNoSolution};
ghost use Rattle.hddl_prune.specs.Search.{parts_of};

use crate::chosen::Chosen;
use crate::joined::pruned_value;
use crate::live::Live;
use htn_base::Memory;
use plan_model::Hddl;
use std::alloc::Global;

/// Why nothing is pruned.
#[derive(Clone, Copy, PartialEq, Eq)]
pub enum PruneError {
    /// The top method isn't live, or the goal can't be so. Then the problem has no solution.
    NoSolution,
    /// Memory was refused.
    Memory,
}

impl From<Memory> for PruneError {
    ghost use Rattle.std.specs.Prelude.{◌≡◌};
    ghost use Rattle.hddl_prune.specs.declared.pruning.PruneError.TheVariants.{Memory as OutOfMemory};

    ghost from_gives = { λ _ error. error ≡ OutOfMemory };

    fn from(_error: Memory) -> PruneError {
        PruneError::Memory
    }
}

/// The problem without what no solution uses.
pub fn prune(alloc: Global, h: &Hddl) -> Result<Hddl, PruneError>
    requires sound { IsSoundProblem h.now }
    ensures pruned { IfOk result (IsPruned h.now) }
    ensures refused { IfErr result (HasNoSolution h.now) }
{
    let live = Live::of(alloc, h)?;
    let pruned = prune_to(alloc, h, &live);
    drop(live);
    pruned
}

/// The same, where these parts are live.
fn prune_to(alloc: Global, h: &Hddl, live: &Live) -> Result<Hddl, PruneError>
    requires listed { AreListed h.now.types }
    requires live { AreLive h.now (parts_of live.now) }
    ensures pruned { IfOk result (IsPruned h.now) }
    ensures refused { IfErr result (HasNoSolution h.now) }
{
    if !live.may_solve(h) {
        return Err(PruneError::NoSolution);
    }
    let kept = Chosen::of(alloc, h, live)?;
    let value = pruned_value(alloc, h, &kept);
    drop(kept);
    Ok(value?)
}
