//! A plan, and lists of a step that are none. An action's word is told apart from one with another letter's case.

ghost use Rattle.ground_state.specs.Runs.{IsRunnable};

use crate::by_hand::problem::red_alone;
use ground_state::{FailWhy, Verdict, run_plan};
use htn_base::{List, Memory, Text};
use plan_model::{GroundAction, Pddl};
use std::alloc::Global;
use std::process::Abort;
use std::test::Fail;

fn step(alloc: Global, name: &[u8]) -> Result<GroundAction, Memory> {
    Ok(GroundAction {
        name: Text::from_slice(alloc, name)?,
        args: List::new(alloc),
    })
}

fn is_plan(rt: &impl Abort, alloc: Global, p: &Pddl) -> Result<(), Memory>
    requires { IsRunnable p.now }
{
    let verdict = run_plan(alloc, p, &[])?;
    assert!(rt; matches!(verdict, Verdict::Plan));
    Ok(())
}

fn fails(
    rt: &impl Abort,
    alloc: Global,
    p: &Pddl,
    name: &[u8],
    place: u32,
    cause: FailWhy,
) -> Result<(), Memory>
    requires { IsRunnable p.now }
{
    let plan = [step(alloc, name)?];
    let verdict = run_plan(alloc, p, &plan)?;
    match verdict {
        Verdict::Plan => assert!(rt; false),
        Verdict::Fails { step, why } => assert!(rt; step == place && why == cause),
    }
    Ok(())
}

fn are_told(rt: &impl Abort, alloc: Global, p: &Pddl) -> Result<(), Memory>
    requires { IsRunnable p.now }
{
    is_plan(rt, alloc, p)?;
    fails(rt, alloc, p, b"paint", 2, FailWhy::GoalFalse)?;
    fails(rt, alloc, p, b"Paint", 1, FailWhy::UnknownAction)
}

#[test]
fn plans(rt: HostRuntime) -> Result<(), Fail> {
    let p = red_alone(rt.alloc())?;
    let told = are_told(&rt, rt.alloc(), &p);
    drop(p);
    told?;
    Ok(())
}
