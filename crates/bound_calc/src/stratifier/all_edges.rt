ghost use Rattle.std.specs.Prelude.{◌<◌, ◌^◌, map, length, IfOk, OnOk};
ghost use Rattle.plan_model.specs.plan_meaning.Strata.{AreEdges};
ghost use Rattle.bound_calc.specs.stratifier.Conditions.{IsSmallCompiled};
ghost use Rattle.bound_calc.specs.stratifier.Listed.{edge_of, AreAdded};

use crate::stratifier::edge::Edge;
use crate::stratifier::reach::reached;
use htn_base::{List, Memory};
use plan_model::{Child, Compiled, Head};
use std::alloc::Global;

/// All edges, by the method's place and then the child's number.
pub fn edges(alloc: Global, c: &Compiled) -> Result<List<Edge>, Memory>
    requires small { IsSmallCompiled c.now }
    ensures edges { IfOk result (λ edges. AreEdges c.now (map edge_of edges)) }
{
    let marks = reached(alloc, c)?;
    let mut edges = List::new(alloc);
    for (m, plan) in c.methods.as_slice().iter().enumerate() {
        if marks[plan.schema.task as usize] {
            add_edges(&mut edges, m as u32, plan.schema.children.as_slice())?;
        }
    }
    Ok(edges)
}

/// Puts an edge to each of the children that are tasks at the end.
fn add_edges(edges: &mut List<Edge>, method: u32, children: &[Child]) -> Result<(), Memory>
    requires { length children.now < 2 ^ 32 }
    ensures added { OnOk result (AreAdded method children.now edges.old edges.new) }
{
    for (i, child) in children.iter().enumerate() {
        if let Head::Task(_) = child.head {
            edges.push(Edge {
                method,
                child: i as u32,
            })?;
        }
    }
    Ok(())
}
