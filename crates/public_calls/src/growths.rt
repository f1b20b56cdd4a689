//! Trees that growths give, and the first place at which growths are not joined, worked out by hand.

use htn_base::{List, Memory};
use std::alloc::Global;
use tree_core::{GrowError, Growth, Label, Scheduled, Tree, grow};

// What stands at a node, by the number of its action or method. An action has its own number as the one argument.
#[derive(Clone, Copy)]
enum Node {
    Action(u32),
    Check(u32),
    Task(u32),
}

// The place of the parent, the child number, and what stands there.
type Row = (Option<u32>, u32, Node);

fn label(alloc: Global, node: Node) -> Result<Label, Memory> {
    let mut args = List::new(alloc);
    match node {
        Node::Action(action) => {
            args.push(action)?;
            Ok(Label::Primitive { action, args })
        }
        Node::Check(method) => Ok(Label::Check { method, args }),
        Node::Task(method) => Ok(Label::Abstract {
            task: 0,
            args,
            method,
            method_args: List::new(alloc),
        }),
    }
}

fn growths(alloc: Global, rows: &[Row]) -> Result<List<Growth>, Memory> {
    let mut growths = List::new(alloc);
    for (parent, child, node) in rows {
        let label = label(alloc, *node)?;
        growths.push(Growth {
            parent: *parent,
            child: *child,
            label,
        })?;
    }
    Ok(growths)
}

// Each growth but the first is the one child of the growth before it.
fn chain(alloc: Global, count: u32) -> Result<List<Growth>, Memory> {
    let mut growths = List::new(alloc);
    for place in 0..count {
        let label = label(alloc, Node::Task(1))?;
        growths.push(Growth {
            parent: place.checked_sub(1),
            child: 0,
            label,
        })?;
    }
    Ok(growths)
}

fn grown(alloc: Global, growths: Result<List<Growth>, Memory>) -> Result<Scheduled, GrowError> {
    match growths {
        Ok(steps) => grown_of_few(alloc, steps),
        Err(Memory) => Err(GrowError::Memory),
    }
}

fn grown_of_few(alloc: Global, steps: List<Growth>) -> Result<Scheduled, GrowError> {
    if steps.len() > 1_000_000 {
        Err(GrowError::Memory)
    } else {
        grow(alloc, steps)
    }
}

// The root, its second child, that one's second and first child, and the root's first child.
const GROWTHS: &[Row] = &[
    (None, 0, Node::Task(3)),
    (Some(0), 1, Node::Task(5)),
    (Some(1), 1, Node::Action(7)),
    (Some(1), 0, Node::Action(8)),
    (Some(0), 0, Node::Check(3)),
];

// In preorder: what stands there, the parent, the child number and the end.
const NODES: &[(Node, Option<u32>, Option<u32>, u32)] = &[
    (Node::Task(3), None, None, 5),
    (Node::Check(3), Some(0), Some(0), 2),
    (Node::Task(5), Some(0), Some(1), 5),
    (Node::Action(8), Some(2), Some(0), 4),
    (Node::Action(7), Some(2), Some(1), 5),
];

const ORDER: &[u32] = &[0, 2, 4, 3, 1];

fn is_labelled(label: Option<&Label>, node: Node) -> bool {
    match (label, node) {
        (Some(Label::Primitive { action, args }), Node::Action(number)) => {
            *action == number && args.as_slice() == [number].as_slice()
        }
        (Some(Label::Check { method, .. }), Node::Check(number)) => *method == number,
        (Some(Label::Abstract { method, .. }), Node::Task(number)) => *method == number,
        _ => false,
    }
}

fn has_nodes(tree: &Tree) -> bool {
    for (address, (node, parent, number, end)) in (0..5).zip(NODES) {
        let placed = (
            tree.parent(address),
            tree.number(address),
            tree.end(address),
        );
        if placed != (*parent, *number, Some(*end)) || !is_labelled(tree.label(address), *node) {
            return false;
        }
    }
    tree.size() == 5 && tree.label(5).is_none() && tree.end(5).is_none()
}

#[test]
fn a_tree_of_five_nodes(rt: HostRuntime) {
    match grown(rt.alloc(), growths(rt.alloc(), GROWTHS)) {
        Ok(run) => {
            let right = has_nodes(&run.tree) && run.order.as_slice() == ORDER;
            drop(run);
            assert!(rt; right);
        }
        Err(_) => panic!(rt; "no tree"),
    }
}

fn is_chain(run: &Scheduled, count: u32) -> bool {
    for address in 0..count {
        let placed = (run.tree.parent(address), run.tree.end(address));
        let at = run.order.as_slice().get(address as usize);
        if placed != (address.checked_sub(1), Some(count)) || at != Some(&address) {
            return false;
        }
    }
    run.tree.size() == count
}

#[test]
fn a_deep_tree(rt: HostRuntime) {
    match grown(rt.alloc(), chain(rt.alloc(), 200_000)) {
        Ok(run) => {
            let right = is_chain(&run, 200_000);
            drop(run);
            assert!(rt; right);
        }
        Err(_) => panic!(rt; "no tree"),
    }
}

// The first place at which something is wrong.
fn unjoined(alloc: Global, rows: &[Row]) -> Option<u32> {
    match grown(alloc, growths(alloc, rows)) {
        Ok(run) => {
            drop(run);
            None
        }
        Err(GrowError::Unjoined { growth }) => Some(growth),
        Err(GrowError::Memory) => None,
    }
}

const ROOT: Row = (None, 0, Node::Task(1));

const UNJOINED: &[(&[Row], u32)] = &[
    (&[], 0),
    // the first has a parent, and a later one has none
    (&[(Some(0), 0, Node::Task(1))], 0),
    (&[ROOT, (None, 0, Node::Action(1))], 1),
    // a parent that is the growth itself, and one that comes later
    (&[ROOT, (Some(1), 0, Node::Action(1))], 1),
    (
        &[
            ROOT,
            (Some(2), 0, Node::Action(1)),
            (Some(0), 0, Node::Task(2)),
        ],
        1,
    ),
    // a child number twice, and one that is left out
    (
        &[
            ROOT,
            (Some(0), 0, Node::Action(1)),
            (Some(0), 0, Node::Action(2)),
        ],
        2,
    ),
    (&[ROOT, (Some(0), 1, Node::Action(1))], 0),
    // an action and a check as parents
    (
        &[(None, 0, Node::Action(1)), (Some(0), 0, Node::Action(2))],
        1,
    ),
    (
        &[
            ROOT,
            (Some(0), 0, Node::Check(1)),
            (Some(1), 0, Node::Action(2)),
        ],
        2,
    ),
];

#[test]
fn growths_that_are_not_joined(rt: HostRuntime) {
    for (rows, growth) in UNJOINED {
        assert!(rt; unjoined(rt.alloc(), rows) == Some(*growth), "at {growth}");
    }
}
