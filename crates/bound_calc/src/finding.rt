ghost use Rattle.std.specs.Prelude.{IfOk, IfErr};
ghost use Rattle.plan_model.specs.plan_meaning.Bound.{IsBound};
ghost use Rattle.plan_texts.specs.SoundlyCompiled.{IsSoundlyCompiled};
ghost use Rattle.bound_calc.specs.NoBound.{HasNoBound};

use crate::cycle::cycle_words;
use crate::groups::{BoundError, bound};
use crate::stratifier::{StratError, stratify};
use htn_base::{Memory, Text};
use plan_model::Compiled;
use std::alloc::Global;

/// Why no bound is told.
#[derive(Drop)]
pub enum NoBound {
    /// The problem is not tail-recursive: the words of the bad cycle that is named, each behind a space.
    Cycle(Text),
    /// The bound is 2^128 or more.
    Past128,
    /// Memory was refused.
    Memory,
}

/// The bound of a compiled problem.
pub fn problem_bound(alloc: Global, compiled: &Compiled) -> Result<u128, NoBound>
    requires soundly { IsSoundlyCompiled compiled.now }
    ensures bound { IfOk result (IsBound compiled.now) }
    ensures refused { IfErr result (HasNoBound compiled.now) }
{
    match stratify(alloc, compiled) {
        Ok(ranks) => {
            let number = bound(alloc, compiled, &ranks);
            drop(ranks);
            match number {
                Ok(number) => Ok(number),
                Err(BoundError::Past128) => Err(NoBound::Past128),
                Err(BoundError::Memory) => Err(NoBound::Memory),
            }
        }
        Err(StratError::Cycle(edges)) => {
            let words = cycle_words(alloc, compiled, edges.as_slice());
            drop(edges);
            match words {
                Ok(words) => Err(NoBound::Cycle(words)),
                Err(Memory) => Err(NoBound::Memory),
            }
        }
        Err(StratError::Memory) => Err(NoBound::Memory),
    }
}
