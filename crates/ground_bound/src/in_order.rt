ghost use Rattle.std.specs.Prelude.{List, map, IfOk};
ghost use Rattle.htn_base.specs.Packed.{Row};
ghost use Rattle.plan_model.specs.declared.values.Compiled.{Compiled};
ghost use Rattle.plan_texts.specs.SoundlyCompiled.{IsSoundlyCompiled};
ghost use Rattle.reached_parts.specs.Search.{AreTheReached};
ghost use Rattle.ground_bound.specs.Grounded.{AreInOrder};
ghost use Rattle.ground_bound.specs.MethodRows.{row};

use htn_base::Memory;
use reached_parts::RowSet;
use std::alloc::Global;

/// A ground method: its place in the compiled list, and an object for each parameter. It compares by the place, and then by the
/// objects.
#[derive(PartialEq, Eq, PartialOrd, Ord, Drop)]
pub(crate) struct MethodRow {
    pub(crate) number: u32,
    pub(crate) objects: Vec<u32>,
}

/// The methods in their order.
pub(crate) fn in_order(alloc: Global, methods: &RowSet) -> Result<Vec<MethodRow>, Memory>
    ensures order { IfOk result (λ rows. (c : Compiled) (tasks actions : List Row) → IsSoundlyCompiled c
        → AreTheReached c tasks actions methods.now → AreInOrder methods.now (map row rows.items)) }
{
    let mut rows = Vec::with_capacity(alloc, methods.len())?;
    for k in 0..methods.len() {
        match methods.get(k) {
            Some(it) => {
                let objects = Vec::from_slice(alloc, it.objects.as_slice())?;
                rows.push(MethodRow {
                    number: it.number,
                    objects,
                })?;
            }
            None => unreachable!(),
        }
    }
    rows.sort_unstable();
    Ok(rows)
}
