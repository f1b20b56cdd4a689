ghost use Rattle.std.specs.Prelude.{ℕ, ◌≡◌, ◌↔◌, length, get_or, slice_get, IfOk, OnOk};
ghost use Rattle.std.specs.Option.{option_and_then};
ghost use Rattle.tree_core.specs.Runs.{label_in, parent_in, number_in};
ghost use Rattle.gap_pass.specs.Children.{children_at};
ghost use Rattle.gap_pass.specs.Passes as spec;

use crate::children::children_at;
use crate::conditions::Conditions;
use crate::least::{least, least_of, number_at, put};
use crate::tour::Step;
use htn_base::{List, Memory};
use kept_front::Later;
use std::alloc::Global;
use tree_core::{Label, Tree};

/// What the pass keeps, by the addresses of nodes: of each that was entered the greatest gap that what comes after it leaves it, and of
/// each that was left its gap. `most` is the greatest gap of all.
pub(crate) struct Pass {
    pub(crate) most: u32,
    pub(crate) caps: Vec<u32>,
    pub(crate) gaps: Vec<u32>,
}

impl Drop for Pass {
    fn drop(self) {
        let Pass {
            most: _,
            caps: _,
            gaps: _,
        } = self;
    }
}

impl Pass {
    /// Of so many nodes, none of which was entered.
    pub(crate) fn new(alloc: Global, size: u32, most: u32) -> Result<Pass, Memory>
        ensures { IfOk result (spec.IsNew size most) }
    {
        let caps = vec![in alloc; 0_u32; size as usize]?;
        let gaps = vec![in alloc; 0_u32; size as usize]?;
        Ok(Pass { most, caps, gaps })
    }

    /// The greatest gap that what comes after the node leaves it.
    fn cap(&self, later: &[Later], tree: &Tree, children: &[List<u32>], node: u32) -> u32
        ensures { spec.IsCapAt later.now tree.now children.now self.now node result }
    {
        let Some(parent) = tree.parent(node) else {
            return self.most;
        };
        least_of(
            self.gaps.as_slice(),
            children_at(children, parent),
            after(later, tree, parent, node),
            number_at(self.caps.as_slice(), parent),
        )
    }

    /// The gap of a node whose children have theirs, or `None` where it can't have any. `own` is the number of a primitive.
    fn gap<C: Conditions>(
        &self,
        alloc: Global,
        children: &[List<u32>],
        own: Option<usize>,
        conditions: &mut C,
        node: u32,
    ) -> Result<Option<u32>, Memory>
        ensures gap { IfOk result (spec.IsGapAt children.now self.now (C.may conditions.old node) own node) }
        ensures stays { OnOk result ((k i : ℕ) → C.may conditions.new k i ↔ C.may conditions.old k i) }
    {
        let cap = number_at(self.caps.as_slice(), node);
        let Some(number) = own else {
            let bound = least(self.gaps.as_slice(), children_at(children, node), cap);
            return conditions.greatest(alloc, node, bound);
        };
        if number >= cap as usize {
            return Ok(None);
        }
        let number = number as u32;
        match conditions.greatest(alloc, node, number)? {
            Some(found) => Ok(only(found, number)),
            None => Ok(None),
        }
    }

    /// Takes a step of the tour, and tells whether there is a gap for the node that is left.
    pub(crate) fn take<C: Conditions>(
        &mut self,
        alloc: Global,
        later: &[Later],
        tree: &Tree,
        children: &[List<u32>],
        own: &[Option<usize>],
        conditions: &mut C,
        step: Step,
    ) -> Result<bool, Memory>
        ensures taken { IfOk result (spec.IsTaken later.now tree.now children.now own.now (C.may conditions.old) self.old self.new step) }
        ensures stays { OnOk result ((k i : ℕ) → C.may conditions.new k i ↔ C.may conditions.old k i) }
    {
        match step {
            Step::Enter(node) => {
                let cap = self.cap(later, tree, children, node);
                put(&mut self.caps, node, cap);
                Ok(true)
            }
            Step::Leave(node) => {
                match self.gap(alloc, children, own_at(own, node), conditions, node)? {
                    Some(gap) => {
                        put(&mut self.gaps, node, gap);
                        Ok(true)
                    }
                    None => Ok(false),
                }
            }
        }
    }
}

/// The gap, if it is this one.
fn only(found: u32, gap: u32) -> Option<u32>
    ensures { result ≡ spec.only found gap }
{
    if found == gap { Some(gap) } else { None }
}

/// The number of a node among the primitives.
fn own_at(own: &[Option<usize>], node: u32) -> Option<usize>
    ensures { result ≡ spec.own_at own.now node }
{
    match own.get(node as usize) {
        Some(number) => *number,
        None => None,
    }
}

/// The numbers of the siblings that a node comes right before.
fn after<'l>(later: &'l [Later], tree: &Tree, parent: u32, node: u32) -> &'l [u32]
    ensures { result.now ≡ spec.after_at later.now (label_in tree.now parent) (number_in tree.now node) }
{
    let Some(Label::Abstract { method, .. }) = tree.label(parent) else {
        return &[];
    };
    let Some(number) = tree.number(node) else {
        return &[];
    };
    match later.get(*method as usize) {
        Some(later) => later.after(number),
        None => &[],
    }
}
