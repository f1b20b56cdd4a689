ghost use Rattle.std.specs.Prelude.{◌≡◌, ◌<◌, length, IfOk};
ghost use Rattle.slot_encoding.specs.EncodedNames as names;
ghost use Rattle.slot_encoding.specs.slot_declarations.Frames.{IsFrame};
ghost use Rattle.slot_encoder.specs.Made as made;

use crate::methods::encoded_method;
use crate::split_action::SplitAction;
use crate::works::{encoded_action, encoded_check};
use htn_base::Memory;
use slot_encoding::slot_declarations::{Frame, plus};
use std::alloc::Global;

/// Action `k`, from 0: those of the methods come first, the top method's before all, then those of the checks, then the
/// source's.
pub(crate) fn action_at(alloc: Global, frame: &Frame<'_>, k: u32) -> Result<SplitAction, Memory>
    requires frame { IsFrame frame.now }
    requires some { k < length (made.all_actions frame.now) }
    ensures { IfOk result (made.IsAction frame.now k) }
{
    let methods = frame.compiled.methods.len() as u32;
    let checks = frame.basis.checks.methods.len() as u32;
    if k < methods {
        encoded_method(alloc, frame, k)
    } else if k - methods < checks {
        encoded_check(alloc, frame, k - methods)
    } else {
        let a = k - methods - checks;
        let action = &frame.compiled.hddl.actions.as_slice()[a as usize];
        encoded_action(alloc, frame, a, action)
    }
}

/// The predicate of method `m`'s check.
pub fn check_predicate(frame: &Frame<'_>, m: u32) -> Result<u32, Memory>
    requires frame { IsFrame frame.now }
    requires some { m < length frame.now.compiled.now.methods }
    ensures { IfOk result (λ p. p ≡ names.check_predicate frame.now.compiled.now m) }
{
    let before = frame.basis.checks.before.as_slice()[m as usize];
    plus(frame.basis.numbers.first_check, before)
}
