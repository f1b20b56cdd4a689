ghost use Rattle.std.specs.Prelude.{◌≡◌, Ok, IfOk};

use htn_base::Memory;

/// What was made, both parts, or the want of memory of one.
pub(crate) fn both<L: Drop, R: Drop>(
    left: Result<L, Memory>,
    right: Result<R, Memory>,
) -> Result<(L, R), Memory>
    ensures left { IfOk result (λ both. left ≡ Ok both.0) }
    ensures right { IfOk result (λ both. right ≡ Ok both.1) }
{
    let left = left?;
    Ok((left, right?))
}
