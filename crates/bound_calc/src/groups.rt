ghost use Rattle.std.specs.Prelude.{IfOk, IfErr};
ghost use Rattle.plan_model.specs.plan_meaning.Bound.{IsBound};
ghost use Rattle.bound_calc.specs.stratifier.Conditions.{HaveNoCycle, IsSmallCompiled};
ghost use Rattle.bound_calc.specs.stratifier.Stratified.{IsStratified};
ghost use Rattle.bound_calc.specs.Lines.{HaveLines};
ghost use Rattle.bound_calc.specs.Past.{IsRefused};

use crate::blocks::method_number;
use crate::by_rank::by_rank;
use crate::stratifier::Ranks;
use htn_base::Memory;
use plan_model::Compiled;
use std::alloc::{AllocError, Global};

/// Why no number is answered. `Past128` comes exactly where the bound is 2^128 or more, `Memory` where no memory was to
/// be had.
#[derive(Clone, Copy, PartialEq, Eq)]
pub enum BoundError {
    Past128,
    Memory,
}

impl From<Memory> for BoundError {
    ghost use Rattle.std.specs.Prelude.{◌≡◌};
    ghost use Rattle.bound_calc.specs.declared.groups.BoundError.TheVariants.{Memory as OutOfMemory};

    ghost from_gives = { λ _ error. error ≡ OutOfMemory };

    fn from(_error: Memory) -> BoundError {
        BoundError::Memory
    }
}

impl From<AllocError> for BoundError {
    ghost use Rattle.std.specs.Prelude.{◌≡◌};
    ghost use Rattle.bound_calc.specs.declared.groups.BoundError.TheVariants.{Memory as OutOfMemory};

    ghost from_gives = { λ _ error. error ≡ OutOfMemory };

    fn from(_error: AllocError) -> BoundError {
        BoundError::Memory
    }
}

/// The bound of a problem with these strata: the number of the top task.
pub fn bound(alloc: Global, c: &Compiled, r: &Ranks) -> Result<u128, BoundError>
    requires small { IsSmallCompiled c.now }
    requires ordered { HaveNoCycle c.now }
    requires lines { HaveLines c.now }
    requires strata { IsStratified c.now r.now }
    ensures bound { IfOk result (IsBound c.now) }
    ensures refused { IfErr result (IsRefused c.now) }
{
    let top = c.hddl.tasks.len();
    let methods = c.methods.as_slice();
    let places = by_rank(alloc, c, r)?;
    let mut numbers = vec![in alloc; 1u128; top + 1]?;
    for place in places.as_slice() {
        let (group, m) = *place;
        let number = method_number(alloc, &methods[m as usize], r, numbers.as_slice())?;
        let former = numbers[group as usize];
        numbers[group as usize] = former.max(number);
    }
    Ok(numbers[r.group(top as u32) as usize])
}
