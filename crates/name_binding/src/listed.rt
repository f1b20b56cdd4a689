ghost use Rattle.std.specs.Prelude.{◌≡◌, IfOk};
ghost use Rattle.name_binding.specs.Listed.{types_bound};
ghost use Rattle.name_binding.specs.Parents.{pairs_in_order};

use crate::table::TypeTable;
use gd_reader::RawParams;
use htn_base::{List, Memory, Name};
use plan_model::Types;
use std::alloc::Global;

/// The types of a table as a part of a value, with the pairs of this section of types.
pub fn types_of(alloc: Global, table: &TypeTable, listed: &RawParams) -> Result<Types, Memory>
    ensures types { IfOk result (λ types.
        types ≡ types_bound table.now (pairs_in_order table.now.types listed.now)) }
{
    let mut names = List::new(alloc);
    for number in table.numbers() {
        names.push(Name { number: *number })?;
    }
    let parents = table.parents_of(alloc, listed)?;
    let unions = table.unions_of(alloc)?;
    Ok(Types {
        names,
        parents,
        unions,
    })
}
