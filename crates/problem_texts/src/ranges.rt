ghost use Rattle.std.specs.Prelude.{◌≡◌, IfOk};
ghost use Rattle.problem_texts.specs.Slots as flat;

use htn_base::{Memory, number};
use pddl_printer::Range;
use plan_model::Compiled;

/// The slots, as objects of the printed problem. Where 2^32 objects or more stand before them, it is answered as want of memory.
pub(crate) fn slots_of(c: &Compiled, slots: u32) -> Result<Range, Memory>
    ensures { IfOk result (λ r. r ≡ flat.slots_of c.now slots) }
{
    let first = number(c.hddl.objects.len())?;
    Ok(Range {
        ty: 1,
        first,
        count: slots,
    })
}
