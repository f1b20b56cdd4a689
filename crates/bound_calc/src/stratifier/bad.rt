ghost use Rattle.std.specs.Prelude.{map, IfOk};
ghost use Rattle.plan_model.specs.plan_meaning.Strata.{AreEdges};
ghost use Rattle.bound_calc.specs.stratifier.Conditions.{IsSmallCompiled, HaveNoCycle};
ghost use Rattle.bound_calc.specs.stratifier.Listed.{edge_of};
ghost use Rattle.bound_calc.specs.stratifier.Bad.{AreBadMarks};

use crate::stratifier::edge::Edge;
use crate::stratifier::last::last_child;
use htn_base::{List, Memory};
use plan_model::Compiled;
use std::alloc::Global;

/// For each of the edges whether it is bad: whether its child isn't the last of its method.
pub fn bad_marks(alloc: Global, c: &Compiled, edges: &List<Edge>) -> Result<List<bool>, Memory>
    requires small { IsSmallCompiled c.now }
    requires ordered { HaveNoCycle c.now }
    requires edges { AreEdges c.now (map edge_of edges.now) }
    ensures bad { IfOk result (AreBadMarks c.now edges.now) }
{
    let mut lasts = Vec::new(alloc);
    for plan in c.methods.as_slice() {
        lasts.push(last_child(alloc, plan)?)?;
    }
    let mut marks = List::new(alloc);
    for edge in edges.as_slice() {
        marks.push(lasts[edge.method as usize] != Some(edge.child))?;
    }
    Ok(marks)
}
