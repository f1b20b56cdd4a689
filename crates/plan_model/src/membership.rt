ghost use Rattle.std.specs.Prelude.{◌<◌, ◌^◌, ◌↔◌, IsTrue, IfOk, length};
ghost use Rattle.std.specs.List.Sorted.{IsStrictlyIncreasing};
ghost use Rattle.plan_model.specs.Typing.{AreObjectsOf, InType};
ghost use Rattle.plan_model.specs.Parts.{AreListed};

use crate::parts::Parts;
use crate::types::{Object, Types};
use htn_base::{List, Memory};
use std::alloc::Global;

/// Whether the object of this number is in the type, which may be a union.
pub fn in_type(types: &Types, objects: &List<Object>, object: u32, ty: u32) -> bool
    requires { AreListed types.now }
    ensures { IsTrue result ↔ InType types.now objects.now object ty }
{
    match objects.get(object as usize) {
        Some(declared) => Parts::new(types, ty).have(declared.ty),
        None => false,
    }
}

/// The numbers of the objects in the type, which may be a union, in declaration order.
pub fn members(
    alloc: Global,
    types: &Types,
    objects: &List<Object>,
    ty: u32,
) -> Result<List<u32>, Memory>
    requires listed { AreListed types.now }
    requires few { length objects.now < 2 ^ 32 }
    ensures members { IfOk result (λ members. AreObjectsOf types.now objects.now ty members) }
    ensures in_order { IfOk result IsStrictlyIncreasing }
{
    let parts = Parts::new(types, ty);
    let mut members = List::new(alloc);
    for (i, object) in objects.as_slice().iter().enumerate() {
        if parts.have(object.ty) {
            members.push(i as u32)?;
        }
    }
    Ok(members)
}
