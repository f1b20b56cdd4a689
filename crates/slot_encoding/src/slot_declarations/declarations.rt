ghost use Rattle.std.specs.Prelude.{IfOk};
ghost use Rattle.slot_encoding.specs.slot_declarations.Frames.{IsFrame};
ghost use Rattle.slot_encoding.specs.slot_declarations.Made as made;

use crate::slot_declarations::frame::Frame;
use crate::slot_declarations::objects::encoded_objects;
use crate::slot_declarations::predicates::encoded_predicates;
use crate::slot_declarations::types::encoded_types;
use htn_base::{List, Memory};
use plan_model::{Object, Predicate, Types};
use std::alloc::Global;

/// What the printed problem declares.
#[derive(Drop)]
pub struct Declarations {
    pub types: Types,
    pub objects: List<Object>,
    pub predicates: List<Predicate>,
}

/// The types, objects and predicates of the printed problem; or want of memory.
pub fn declarations_of(alloc: Global, frame: &Frame<'_>) -> Result<Declarations, Memory>
    requires { IsFrame frame.now }
    ensures { IfOk result (made.AreDeclarations frame.now) }
{
    let objects = encoded_objects(alloc, frame)?;
    let predicates = encoded_predicates(alloc, frame)?;
    Ok(Declarations {
        types: encoded_types(alloc, frame)?,
        objects,
        predicates,
    })
}
