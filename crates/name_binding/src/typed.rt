ghost use Rattle.std.specs.Prelude.{◌≡◌, IfOk, IsTrue, OnOk};
ghost use Rattle.name_binding.specs.Spots.{noted};
ghost use Rattle.name_binding.specs.Kinds.{kind_bound, kind_faults};
ghost use Rattle.name_binding.specs.Noted.{IsKindNoted};
ghost use Rattle.name_binding.specs.Typed.{params_bound, objects_bound, params_faults};

use crate::faults::Faults;
use crate::table::TypeTable;
use gd_reader::{RawParams, RawTerm};
use htn_base::{List, Memory};
use plan_model::{Object, Param};
use std::alloc::Global;

/// The variables of a typed list with the numbers of their types.
pub fn params_of(
    alloc: Global,
    table: &TypeTable,
    params: &RawParams,
    faults: &mut Faults,
) -> Result<List<Param>, Memory>
    ensures bound { IfOk result (λ bound. bound ≡ params_bound table.now params.now) }
    ensures faults { OnOk result
        (faults.new.least ≡ noted faults.old.least (params_faults table.now params.now)) }
{
    let mut bound = List::new(alloc);
    let mut ty = 0;
    let words = params.as_slice();
    for (i, param) in words.iter().enumerate() {
        let types = param.ty.as_slice();
        let same = params.is_typed_as_before(i);
        ty = kind_by(alloc, table, same, ty, types, faults)?;
        bound.push(Param {
            name: param.name,
            ty,
        })?;
    }
    Ok(bound)
}

/// The number of these types: where they are those of the word before, that of these, whose faults are
/// noted.
fn kind_by(
    alloc: Global,
    table: &TypeTable,
    same: bool,
    kind: u32,
    types: &[RawTerm],
    faults: &mut Faults,
) -> Result<u32, Memory>
    requires known { IsTrue same → IsKindNoted table.now types.now kind faults.old.least }
    ensures bound { IfOk result (λ kind. kind ≡ kind_bound table.now types.now) }
    ensures faults { OnOk result
        (faults.new.least ≡ noted faults.old.least (kind_faults table.now types.now)) }
{
    if same {
        Ok(kind)
    } else {
        table.kind_of(alloc, types, faults)
    }
}

/// The objects of a typed list with the numbers of their types. Those that a domain declares are constants.
pub fn objects_of(
    alloc: Global,
    table: &TypeTable,
    listed: &RawParams,
    constant: bool,
    faults: &mut Faults,
) -> Result<List<Object>, Memory>
    ensures bound { IfOk result (λ bound. bound ≡ objects_bound table.now constant listed.now) }
    ensures faults { OnOk result
        (faults.new.least ≡ noted faults.old.least (params_faults table.now listed.now)) }
{
    let mut bound = List::new(alloc);
    for object in listed.as_slice() {
        let ty = table.kind_of(alloc, object.ty.as_slice(), faults)?;
        bound.push(Object {
            name: object.name,
            ty,
            constant,
        })?;
    }
    Ok(bound)
}
