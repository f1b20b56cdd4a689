ghost use Rattle.std.specs.Prelude.{◌≡◌, ◌≤◌, ◌+◌, length, IfOk};
ghost use Rattle.htn_base.specs.Limits.{longest_input, most_lines};
ghost use Rattle.hplan_text.specs.Printable.{IsPrintableHPlan, IsSoundHPlan};
ghost use Rattle.made_transport.specs.Made as spec;

use crate::nodes::{nodes, root};
use crate::steps::primitives;
use crate::texts::{domain, problem};
use crate::values::Made;
use hplan_text::HPlan;
use htn_base::Memory;
use std::alloc::Global;

/// The problem of k packages, and the plan that delivers them one after the other.
pub fn made(alloc: Global, k: u32) -> Result<Made, Memory>
    requires some { 1 ≤ k }
    requires few { k ≤ 819 }
    ensures made { IfOk result (spec.IsMade k) }
    ensures sound { IfOk result (λ made. IsSoundHPlan made.plan) }
    ensures printable { IfOk result (λ made. IsPrintableHPlan made.plan) }
    ensures few { IfOk result (λ made. length made.plan.primitives + length made.plan.nodes ≤ most_lines) }
    ensures short { IfOk result (λ made. (length made.domain ≤ longest_input) × (length made.problem ≤ longest_input)) }
{
    let domain = domain(alloc)?;
    let problem = problem(alloc, k)?;
    Ok(Made {
        domain,
        problem,
        plan: plan(alloc, k)?,
    })
}

// The plan.
fn plan(alloc: Global, k: u32) -> Result<HPlan, Memory>
    requires some { 1 ≤ k }
    requires few { k ≤ 819 }
    ensures { IfOk result (λ plan. plan ≡ spec.made_plan k) }
{
    let first = 4 * k - 1;
    let primitives = primitives(alloc, k)?;
    let root = root(alloc, first, k)?;
    Ok(HPlan {
        primitives,
        root,
        nodes: nodes(alloc, first, k)?,
    })
}
