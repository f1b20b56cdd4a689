ghost use Rattle.std.specs.Prelude.{◌≡◌, ◌++◌, map, IfOk, OnOk};
ghost use Rattle.slot_encoding.specs.slot_declarations.Frames.{IsFrame};
ghost use Rattle.slot_encoding.specs.slot_declarations.Made as made;

use crate::slot_declarations::frame::Frame;
use crate::slot_declarations::types::retyped;
use crate::slot_declarations::words::renamed;
use htn_base::{List, Memory};
use plan_model::Param;
use std::alloc::Global;

/// These variables of the source as they stand in the printed problem.
pub fn source_params(
    alloc: Global,
    frame: &Frame<'_>,
    params: &[Param],
) -> Result<List<Param>, Memory>
    requires { IsFrame frame.now }
    ensures { IfOk result (λ ps. ps ≡ map (made.param frame.now) params.now) }
{
    let mut into = List::new(alloc);
    push_params(frame, params, &mut into)?;
    Ok(into)
}

/// Puts these variables of the source at the end.
pub fn push_params(
    frame: &Frame<'_>,
    params: &[Param],
    into: &mut List<Param>,
) -> Result<(), Memory>
    requires { IsFrame frame.now }
    ensures { OnOk result (into.new ≡ into.old ++ map (made.param frame.now) params.now) }
{
    for param in params {
        into.push(Param {
            name: renamed(frame, param.name),
            ty: retyped(param.ty)?,
        })?;
    }
    Ok(())
}
