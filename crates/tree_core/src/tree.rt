ghost use Rattle.std.specs.Prelude.{◌≡◌, [], ◌∷◌, ◌++◌, length, option_map, IfOk, OnOk, OnErr};
ghost use Rattle.std.specs.Option.{option_copied};
ghost use Rattle.tree_core.specs.Labels.{label_of};
ghost use Rattle.tree_core.specs.Runs.{label_in, parent_in, number_in, end_in};

use crate::growth::Growth;
use crate::label::Label;
use htn_base::{List, Memory};
use std::alloc::Global;
use std::marker::Model;

// A node: the place of its growth, the address of its parent, and the address after its subtree. Whether it has a parent, and
// its child number, its growth says.
#[derive(Clone, Copy)]
pub(crate) struct Node {
    pub(crate) growth: u32,
    pub(crate) parent: u32,
    pub(crate) end: u32,
}

/// A tree by its nodes in preorder. A node's address is its place, from 0. The first child of a node is at the next address,
/// if that is below the node's end, and the next sibling of a child is at the child's end, if that is below the parent's.
///
/// Contracts see the list of the rows.
pub struct Tree {
    // in the order in which they came: each has the label of its node
    pub(crate) growths: List<Growth>,
    pub(crate) nodes: List<Node>,
}

impl Drop for Tree {
    fn drop(self) {
        let Tree {
            growths: _,
            nodes: _,
        } = self;
    }
}

impl Model for Tree {
    ghost use Rattle.std.specs.Prelude.{List};
    ghost use Rattle.tree_core.specs.Tables.{Row};
    ghost use Rattle.tree_core.specs.Labels.{labels};
    ghost use Rattle.tree_core.specs.Nodes.{rows_of, AreNodesOf};

    ghost Value = { List (Row labels) };

    ghost view = { λ tree. rows_of tree.growths tree.nodes };

    ghost invariant = { λ tree. AreNodesOf tree.growths tree.nodes };
}

impl Tree {
    /// The number of nodes.
    pub fn size(&self) -> u32
        ensures size { result ≡ length self.now }
    {
        self.nodes.len() as u32
    }

    /// The label of the node, or `None` where the address is at least the size.
    pub fn label(&self, address: u32) -> Option<&Label>
        ensures label { option_map label_of (option_copied result) ≡ label_in self.now address }
    {
        let node = self.nodes.get(address as usize)?;
        Some(&self.growths.get(node.growth as usize)?.label)
    }

    /// The address of the node's parent, or `None` where the address is 0 or at least the size.
    pub fn parent(&self, address: u32) -> Option<u32>
        ensures parent { result ≡ parent_in self.now address }
    {
        let node = self.nodes.get(address as usize)?;
        self.growths.get(node.growth as usize)?.parent?;
        Some(node.parent)
    }

    /// The number of the node among its parent's children, from 0, or `None` where the address is 0 or at least the size.
    pub fn number(&self, address: u32) -> Option<u32>
        ensures number { result ≡ number_in self.now address }
    {
        let node = self.nodes.get(address as usize)?;
        let growth = self.growths.get(node.growth as usize)?;
        growth.parent?;
        Some(growth.child)
    }

    /// The address after the node's subtree, or `None` where the address is at least the size.
    pub fn end(&self, address: u32) -> Option<u32>
        ensures end { result ≡ end_in self.now address }
    {
        Some(self.nodes.get(address as usize)?.end)
    }

    /// An equal tree.
    pub fn copy(&self, alloc: Global) -> Result<Tree, Memory>
        ensures equal { IfOk result (λ copy. copy ≡ self.now) }
    {
        let mut growths = List::with_room(alloc, self.growths.len())?;
        for growth in self.growths.as_slice() {
            growths.put(growth.copy(alloc))?;
        }
        Ok(Tree {
            growths,
            nodes: self.nodes.copy(alloc)?,
        })
    }
}
