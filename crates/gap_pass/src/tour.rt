ghost use Rattle.std.specs.Prelude.{◌≡◌, ◌++◌, IfOk, OnOk};
ghost use Rattle.plan_model.specs.plan_meaning.Network.{network};
ghost use Rattle.tree_core.specs.Runs.{label_in};
ghost use Rattle.gap_pass.specs.Children.{AreAllChildren};
ghost use Rattle.gap_pass.specs.Tours.{HasLines, line_of, entered, following, OfTree, IsTour};

use crate::children::children_at;
use htn_base::{List, Memory};
use plan_model::Compiled;
use std::alloc::Global;
use tree_core::{Label, Tree};

/// A step of a tour through a tree: a node is entered, or it is left.
#[derive(Clone, Copy)]
pub(crate) enum Step {
    Enter(u32),
    Leave(u32),
}

/// The tour that goes through the children of each node from the last of its method's line to the first.
pub(crate) fn tour(
    alloc: Global,
    c: &Compiled,
    tree: &Tree,
    children: &[List<u32>],
) -> Result<List<Step>, Memory>
    requires lines { HasLines c.now }
    requires children { AreAllChildren tree.now children.now }
    ensures { IfOk result (λ steps. OfTree c.now tree.now (λ T. IsTour (network c.now) T steps)) }
{
    let mut steps = List::new(alloc);
    let mut stack = Vec::new(alloc);
    stack.push(Step::Enter(0))?;
    for _step in 0..2 * tree.size() as usize {
        let Some(step) = stack.pop() else {
            return Ok(steps);
        };
        push_following(&mut stack, c, tree, children, step)?;
        steps.push(step)?;
    }
    Ok(steps)
}

/// What a step is followed by: where a node is entered, its children are, and then it is left.
fn push_following(
    stack: &mut Vec<Step>,
    c: &Compiled,
    tree: &Tree,
    children: &[List<u32>],
    step: Step,
) -> Result<(), Memory>
    ensures { OnOk result (stack.new.items ≡ stack.old.items ++ following c.now tree.now children.now step) }
{
    match step {
        Step::Enter(node) => {
            stack.push(Step::Leave(node))?;
            push_children(stack, line(c, tree, node), children_at(children, node))
        }
        Step::Leave(_) => Ok(()),
    }
}

/// The line of the children of a node.
fn line<'c>(c: &'c Compiled, tree: &Tree, node: u32) -> &'c [u32]
    ensures { result.now ≡ line_of c.now (label_in tree.now node) }
{
    let Some(Label::Abstract { method, .. }) = tree.label(node) else {
        return &[];
    };
    match c.methods.get(*method as usize) {
        Some(plan) => plan.line.as_slice(),
        None => &[],
    }
}

/// The children are to be entered, the last of the line first.
fn push_children(stack: &mut Vec<Step>, line: &[u32], children: &[u32]) -> Result<(), Memory>
    ensures { OnOk result (stack.new.items ≡ stack.old.items ++ entered children.now line.now) }
{
    for number in line {
        if let Some(child) = children.get(*number as usize) {
            stack.push(Step::Enter(*child))?;
        }
    }
    Ok(())
}
