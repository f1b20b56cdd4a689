ghost use Rattle.std.specs.Prelude.{◌≡◌, ◌≤◌, ◌<◌, length, IsTrue, IfOk};
ghost use Rattle.htn_base.specs.Limits.{most_steps};
ghost use Rattle.plan_texts.specs.SoundlyCompiled.{IsSoundlyCompiled};
ghost use Rattle.tree_core.specs.Labels.{label_of};
ghost use Rattle.chosen_trees.specs.ChosenTrees as spec;
ghost use Rattle.chosen_trees.specs.Growing.{values_in, asking_from, new_label, HasValues};

use htn_base::{List, Memory};
use plan_model::Compiled;
use std::alloc::Global;
use tree_core::{GrowError, Growth, Label, Tree, grow};

/// The tree in which each method has the values at the place of the node that asks for them: its check, or else itself. It is the same
/// tree where each has them already. `values`: by the addresses of nodes.
pub fn with_values(
    alloc: Global,
    c: &Compiled,
    tree: Tree,
    values: &[List<u32>],
) -> Result<Tree, Memory>
    requires soundly { IsSoundlyCompiled c.now }
    requires few { length tree ≤ most_steps }
    ensures tree { IfOk result (spec.IsChosenTree c.now tree values.now) }
{
    if has_values(c, &tree, values) {
        return Ok(tree);
    }
    let chosen = grown(alloc, c, &tree, values);
    drop(tree);
    chosen
}

/// Whether each method has these values already.
fn has_values(c: &Compiled, tree: &Tree, values: &[List<u32>]) -> bool
    requires few { length tree.now ≤ most_steps }
    ensures { IsTrue result → HasValues c.now values.now tree.now }
{
    let mut address = 0;
    while let Some(label) = tree.label(address) {
        if !label_has(c, values, address, label) {
            return false;
        }
        address += 1;
    }
    true
}

/// Whether the label at an address has the values of the node that asks for them already.
fn label_has(c: &Compiled, values: &[List<u32>], address: u32, label: &Label) -> bool
    requires few { address < most_steps }
    ensures { IsTrue result → new_label c.now values.now address (label_of label.now) ≡ label_of label.now }
{
    match label {
        Label::Primitive { action: _, args: _ } => true,
        Label::Check { method: _, args } => are_at(values, address, args),
        Label::Abstract {
            method,
            method_args,
            ..
        } => are_at(values, asking(c, *method, address), method_args),
    }
}

/// Whether these values stand at an address.
fn are_at(values: &[List<u32>], address: u32, own: &List<u32>) -> bool
    ensures { IsTrue result → values_in values.now address ≡ own.now }
{
    match values.get(address as usize) {
        Some(found) => found == own,
        None => own.as_slice().is_empty(),
    }
}

/// The tree in which each method has the values at the place of the node that asks for them, grown anew.
fn grown(alloc: Global, c: &Compiled, tree: &Tree, values: &[List<u32>]) -> Result<Tree, Memory>
    requires soundly { IsSoundlyCompiled c.now }
    requires few { length tree.now ≤ most_steps }
    ensures tree { IfOk result (spec.IsChosenTree c.now tree.now values.now) }
{
    let mut growths = List::with_room(alloc, tree.size() as usize)?;
    let mut address = 0;
    while let Some(label) = tree.label(address) {
        growths.push(Growth {
            parent: tree.parent(address),
            child: tree.number(address).unwrap_or(0),
            label: label_with(alloc, c, values, address, label)?,
        })?;
        address += 1;
    }
    // The nodes are joined as they were: where they are not, the rows are no tree's, and stay as they are.
    match grow(alloc, growths) {
        Ok(run) => Ok(run.into_tree()),
        Err(GrowError::Memory) => Err(Memory),
        Err(GrowError::Unjoined { growth: _ }) => tree.copy(alloc),
    }
}

/// The label at an address, with the values of the node that asks for them.
fn label_with(
    alloc: Global,
    c: &Compiled,
    values: &[List<u32>],
    address: u32,
    label: &Label,
) -> Result<Label, Memory>
    requires few { address < most_steps }
    ensures label { IfOk result (λ made. label_of made ≡ new_label c.now values.now address (label_of label.now)) }
{
    match label {
        Label::Primitive { action: _, args: _ } => label.copy(alloc),
        Label::Check { method, args: _ } => Ok(Label::Check {
            method: *method,
            args: values_at(alloc, values, address)?,
        }),
        Label::Abstract {
            task,
            args,
            method,
            method_args: _,
        } => {
            let args = args.copy(alloc)?;
            Ok(Label::Abstract {
                task: *task,
                args,
                method: *method,
                method_args: values_at(alloc, values, asking(c, *method, address))?,
            })
        }
    }
}

/// The address of the node that asks for the values of this method at an address: its check is its first child.
fn asking(c: &Compiled, method: u32, address: u32) -> u32
    requires few { address < most_steps }
    ensures { result ≡ asking_from c.now method address }
{
    match c.methods.get(method as usize) {
        Some(plan) if plan.checked => address + 1,
        _ => address,
    }
}

/// The values at an address. There are none where the list ends before it.
fn values_at(alloc: Global, values: &[List<u32>], address: u32) -> Result<List<u32>, Memory>
    ensures { IfOk result (λ found. found ≡ values_in values.now address) }
{
    match values.get(address as usize) {
        Some(values) => values.copy(alloc),
        None => Ok(List::new(alloc)),
    }
}
