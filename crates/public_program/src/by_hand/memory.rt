//! Where memory is wanting while a step is taken, the run is as it was. `bench/want_of_memory.sh` lets each allocation
//! fail in turn.

ghost use Rattle.ground_state.specs.Runs.{IsRunnable};

use crate::by_hand::problem::red_alone;
use ground_state::Run;
use htn_base::Memory;
use plan_model::Pddl;
use std::alloc::Global;
use std::process::Abort;
use std::test::Fail;

/// Takes the step. The goal is then false, or memory was wanting, and the goal is as true as at first.
fn takes_or_stays(rt: &impl Abort, alloc: Global, p: &Pddl, name: &[u8]) -> Result<(), Memory>
    requires { IsRunnable p.now }
{
    let mut run = Run::new(alloc, p)?;
    match run.take(alloc, name, &[]) {
        Ok(None) => assert!(rt; !run.reaches_goal()),
        Ok(Some(_)) => assert!(rt; false),
        Err(Memory) => assert!(rt; run.reaches_goal()),
    }
    Ok(())
}

#[test]
fn want_of_memory(rt: HostRuntime) -> Result<(), Fail> {
    if let Ok(p) = red_alone(rt.alloc()) {
        let names: [&[u8]; 2] = [b"paint", b"wash"];
        for name in names {
            // memory may be wanting before the step
            let _ = takes_or_stays(&rt, rt.alloc(), &p, name);
        }
        drop(p);
    }
    Ok(())
}
