ghost use Rattle.std.specs.Prelude.{ℕ, ◌≡◌, IfOk, OnOk};
ghost use Rattle.plan_model.specs.task_networks.Tree.{Tree as DecompositionTree};
ghost use Rattle.plan_model.specs.plan_meaning.Network.{network};
ghost use Rattle.plan_model.specs.declared.values.Compiled.{Compiled as compiled};
ghost use Rattle.tree_core.specs.Tables.{table};
ghost use Rattle.tree_core.specs.Labels.{labels, labelled};
ghost use Rattle.schedule_queue.specs.Children as spec;

use htn_base::{List, Memory};
use std::alloc::Global;
use tree_core::Tree;

/// The addresses of the children of each node, by their numbers.
pub(crate) struct Children {
    by_parent: Vec<List<u32>>,
}

impl Drop for Children {
    fn drop(self) {
        let Children { by_parent: _ } = self;
    }
}

impl Children {
    /// Those of a tree.
    pub(crate) fn of(alloc: Global, tree: &Tree) -> Result<Children, Memory>
        ensures { IfOk result (λ children. (c : compiled) (T : DecompositionTree (network c)) → tree.now ≡ table labels (labelled c T)
            → spec.AreChildrenOf (network c) T children) }
    {
        let mut by_parent = Vec::new(alloc);
        for _address in 0..tree.size() {
            by_parent.push(List::new(alloc))?;
        }
        for address in 0..tree.size() {
            put(&mut by_parent, tree.parent(address), address)?;
        }
        Ok(Children { by_parent })
    }

    /// Those of a node.
    pub(crate) fn below(&self, address: u32) -> &[u32]
        ensures { result.now ≡ spec.below self.now address }
    {
        match self.by_parent.get(address as usize) {
            Some(list) => list.as_slice(),
            None => &[],
        }
    }
}

/// One more child of the parent, if there is one.
fn put(by_parent: &mut Vec<List<u32>>, parent: Option<u32>, address: u32) -> Result<(), Memory>
    ensures { OnOk result (by_parent.new.items ≡ spec.with_child by_parent.old.items parent address) }
{
    let Some(parent) = parent else {
        return Ok(());
    };
    let parent = parent as usize;
    if parent >= by_parent.len() {
        return Ok(());
    }
    by_parent[parent].push(address)
}
