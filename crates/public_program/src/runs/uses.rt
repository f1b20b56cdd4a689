//! A method that calls its task last, used 100,000 times: its hierarchical plan is encoded, the steps are decoded, and what that tells
//! is encoded again. All texts are made here, from the rules for numbers and slots.
use super::decodings::USES;
use super::texts::PROBLEM;
use super::{DECODE, Outside};
use htn_base::Memory;
use htn_cli::{Status, run};
use std::alloc::Global;
use std::process::Abort;
use std::test::Fail;

const COUNT: u32 = 100_000;

const ENCODE: &[&str] = &["encode", "d.hddl", "p.hddl", "plan"];

/// The steps: at each use the action has the second slot.
fn steps(alloc: Global) -> Result<String, Memory> {
    let mut text = String::from_str(alloc, "; slots 2\n(htn_start htn_s1)\n")?;
    for _ in 0..COUNT {
        text.push_str("(htn_m_m htn_s1 htn_s2)\n(a htn_s2)\n")?;
    }
    text.push_str("(htn_m_e htn_s1)\n")?;
    Ok(text)
}

/// The hierarchical plan with the numbers that are told: first those of the actions.
fn numbered(alloc: Global) -> Result<String, Memory> {
    let mut text = String::from_str(alloc, "==>\n")?;
    for action in 0..COUNT {
        text.push_str(&format!(in alloc; "{action} a\n")?)?;
    }
    text.push_str(&format!(in alloc; "root {COUNT}\n")?)?;
    for action in 0..COUNT {
        let task = COUNT + action;
        let next = task + 1;
        text.push_str(&format!(in alloc; "{task} t -> m {action} {next}\n")?)?;
    }
    let last = 2 * COUNT;
    text.push_str(&format!(in alloc; "{last} t -> e\n<==\n")?)?;
    Ok(text)
}

/// The same plan with other numbers, and each task behind its action.
fn mixed(alloc: Global) -> Result<String, Memory> {
    let mut text = String::from_str(alloc, "==>\nroot 1\n")?;
    for use_number in 0..COUNT {
        let action = 2 * use_number;
        let task = action + 1;
        let next = task + 2;
        text.push_str(&format!(in alloc; "{action} a\n{task} t -> m {action} {next}\n")?)?;
    }
    let last = 2 * COUNT + 1;
    text.push_str(&format!(in alloc; "{last} t -> e\n<==\n")?)?;
    Ok(text)
}

/// The run over this plan tells this text.
fn tells(
    rt: &impl Abort,
    alloc: Global,
    command: &[&str],
    plan: &str,
    told: &str,
) -> Result<(), Memory> {
    let mut outside = Outside::new(alloc);
    outside.files.add("d.hddl", USES.as_bytes())?;
    outside.files.add("p.hddl", PROBLEM.as_bytes())?;
    outside.files.add("plan", plan.as_bytes())?;
    let mut words = Vec::new(alloc);
    for word in command {
        words.push(String::from_str(alloc, word)?)?;
    }
    let status = run(
        alloc,
        words.as_slice(),
        &mut outside.files,
        &mut outside.out,
        &mut outside.err,
    );
    assert_eq!(rt; status, Status::Done);
    assert!(rt; outside.out.bytes() == told.as_bytes());
    Ok(())
}

#[test]
fn there_and_back(rt: HostRuntime) -> Result<(), Fail> {
    let steps = steps(rt.alloc())?;
    let numbered = numbered(rt.alloc())?;
    let mixed = mixed(rt.alloc())?;
    tells(&rt, rt.alloc(), ENCODE, mixed.as_str(), steps.as_str())?;
    tells(&rt, rt.alloc(), DECODE, steps.as_str(), numbered.as_str())?;
    tells(&rt, rt.alloc(), ENCODE, numbered.as_str(), steps.as_str())?;
    Ok(())
}
