//! What is printed for two small problems, as the contracts of functions that do nothing.
//!
//! `read` is a value of the two source texts, which spell the problem that the law is about; `compiled` is compiled of it, in
//! either mode of preconditions, and `value` is its printed problem, in either style. `slots` is the number of slots, whatever it
//! is.

ghost use Rattle.plan_texts.specs.FirstSeen.{IsHddlOf};
ghost use Rattle.plan_texts.specs.PrintedTexts.{domain_text, problem_text};
ghost use Rattle.slot_encoding.specs.Printed.{IsPrinted};
ghost use Rattle.plan_proof.specs.Problems.{smallest, calls_itself};
ghost use Rattle.plan_proof.specs.Plans.{start_m_a, IsOnlyPlan, IsOnlyPrintedPlan, HasNoPlan, HaveNoPlan};

use plan_model::{Checks, Compiled, Hddl, Pddl, Style};

/// The smallest problem has one plan: the start, the task by its method, the action.
pub fn smallest_has_one_plan(
    domain: &[u8],
    problem: &[u8],
    read: &Hddl,
    checks: &Checks,
    compiled: &Compiled,
    slots: u32,
    style: &Style,
    value: &Pddl,
)
    requires smallest { IsHddlOf domain.now problem.now smallest }
    requires spelled { IsHddlOf domain.now problem.now read.now }
    requires printed { IsPrinted read.now checks.now compiled.now slots style.now value.now }
    ensures plan { IsOnlyPlan start_m_a value.now }
    ensures plan_of_texts { IsOnlyPrintedPlan start_m_a value.now }
{}

/// Where the only method of the task has the task itself as its only subtask, there is no plan.
pub fn calls_itself_has_no_plan(
    domain: &[u8],
    problem: &[u8],
    read: &Hddl,
    checks: &Checks,
    compiled: &Compiled,
    slots: u32,
    style: &Style,
    value: &Pddl,
)
    requires calls_itself { IsHddlOf domain.now problem.now calls_itself }
    requires spelled { IsHddlOf domain.now problem.now read.now }
    requires printed { IsPrinted read.now checks.now compiled.now slots style.now value.now }
    ensures none { HasNoPlan value.now }
    ensures none_of_texts { HaveNoPlan (domain_text value.now) (problem_text value.now) }
{}
