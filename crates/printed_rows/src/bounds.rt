//! Prints for each of some problems the blocks of its network, and the bound or the bad cycle that is named.

ghost use Rattle.std.specs.Prelude.{◌≡◌};
ghost use Rattle.printed_rows.specs.Ready.{AreReady};

use crate::cases::CASES;
use crate::ready::{are_below, are_ready};
use crate::running::{Failure, compiled_source, source_of};
use bound_calc::stratifier::{Edge, StratError, stratify};
use bound_calc::{BoundError, bound};
use htn_base::Name;
use outside_io::DiskFiles;
use plan_model::net_order::{Order, OrderError};
use plan_model::{Checks, Compiled, Head, MethodPlan};
use std::alloc::Global;
use std::io::Write;

/// Prints a line for each problem.
pub fn print_bounds(rt: &HostRuntime, alloc: Global, files: &mut DiskFiles) -> Result<(), Failure> {
    for case in CASES {
        let (domain, problem) = *case;
        let compiled = compiled_case(alloc, files, domain, problem)?;
        let told = print_case(rt, alloc, domain, problem, &compiled);
        drop(compiled);
        told?;
    }
    Ok(())
}

fn compiled_case(
    alloc: Global,
    files: &mut DiskFiles,
    domain: &str,
    problem: &str,
) -> Result<Compiled, Failure> {
    let source = source_of(alloc, files, domain, problem)?;
    let compiled = compiled_source(alloc, &source, Checks::Leaf);
    drop(source);
    compiled
}

fn print_case(
    rt: &HostRuntime,
    alloc: Global,
    domain: &str,
    problem: &str,
    c: &Compiled,
) -> Result<(), Failure> {
    print!(rt; "{domain} {problem} [")?;
    if let Some(plan) = c.methods.get(0) {
        print_blocks(rt, alloc, plan)?;
    }
    print!(rt; "] ")?;
    if are_ready(alloc, c)? {
        print_answer(rt, alloc, c)
    } else {
        Err(Failure::Form)
    }
}

/// Prints the children by their numbers, in their line, with a bar at each cut.
fn print_blocks(rt: &HostRuntime, alloc: Global, plan: &MethodPlan) -> Result<(), Failure> {
    let count = plan.schema.children.len();
    let pairs = plan.schema.pairs.as_slice();
    if count > 4097 || pairs.len() > 0xffff_ffff || !are_below(count as u32, pairs) {
        return Err(Failure::Form);
    }
    match Order::new(alloc, count as u32, pairs) {
        Ok(order) => {
            let told = print_line(rt, &order, count as u32);
            drop(order);
            told
        }
        Err(OrderError::Cycle { .. }) => Err(Failure::Form),
        Err(OrderError::Memory) => Err(Failure::Memory),
    }
}

fn print_line(rt: &HostRuntime, order: &Order, count: u32) -> Result<(), Failure>
    requires { order.now.count ≡ count }
{
    for k in 0..count {
        if k > 0 {
            let bar = if order.cut(k) { " | " } else { " " };
            print!(rt; "{bar}")?;
        }
        if let Some(child) = order.line().get(k as usize) {
            print!(rt; "{child}")?;
        }
    }
    Ok(())
}

fn print_answer(rt: &HostRuntime, alloc: Global, c: &Compiled) -> Result<(), Failure>
    requires ready { AreReady c.now }
{
    match stratify(alloc, c) {
        Ok(ranks) => {
            let found = bound(alloc, c, &ranks);
            drop(ranks);
            print_bound(rt, found)
        }
        Err(StratError::Cycle(cycle)) => {
            let told = print_cycle(rt, c, cycle.as_slice());
            drop(cycle);
            told
        }
        Err(StratError::Memory) => Err(Failure::Memory),
    }
}

fn print_bound(rt: &HostRuntime, found: Result<u128, BoundError>) -> Result<(), Failure> {
    match found {
        Ok(number) => println!(rt; "bound {number}")?,
        Err(BoundError::Past128) => println!(rt; "limit bound")?,
        Err(BoundError::Memory) => return Err(Failure::Memory),
    }
    Ok(())
}

/// Prints for each edge its task and its method, and then the task that the last one goes to.
fn print_cycle(rt: &HostRuntime, c: &Compiled, cycle: &[Edge]) -> Result<(), Failure> {
    print!(rt; "not tail-recursive:")?;
    for edge in cycle {
        if let Some(plan) = c.methods.get(edge.method as usize) {
            print_task(rt, c, plan.schema.task)?;
            print_name(rt, c, plan.schema.name)?;
        }
    }
    if let Some(edge) = cycle.last() {
        print_target(rt, c, *edge)?;
    }
    println!(rt; "")?;
    Ok(())
}

fn print_target(rt: &HostRuntime, c: &Compiled, edge: Edge) -> Result<(), Failure> {
    if let Some(plan) = c.methods.get(edge.method as usize) {
        if let Some(child) = plan.schema.children.get(edge.child as usize) {
            if let Head::Task(task) = child.head {
                print_task(rt, c, task)?;
            }
        }
    }
    Ok(())
}

fn print_task(rt: &HostRuntime, c: &Compiled, task: u32) -> Result<(), Failure> {
    match c.hddl.tasks.get(task as usize) {
        None => Err(Failure::Form),
        Some(schema) => print_name(rt, c, schema.name),
    }
}

fn print_name(rt: &HostRuntime, c: &Compiled, name: Name) -> Result<(), Failure> {
    match c.hddl.names.text(name) {
        None => Err(Failure::Form),
        Some(word) => {
            rt.stdout().write_all(b" ")?;
            rt.stdout().write_all(word)?;
            Ok(())
        }
    }
}
