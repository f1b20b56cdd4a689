ghost use Rattle.std.specs.Prelude.{◌≡◌, IfOk};

use crate::label::Label;
use crate::tree::Tree;
use htn_base::{List, Memory};
use std::alloc::Global;

/// A node that a tree grows by. `parent` is the place of its parent's growth among the growths, and `child` the number of
/// the node among its parent's children, from 0. The root has no parent, and its child number says nothing.
pub struct Growth {
    pub parent: Option<u32>,
    pub child: u32,
    pub label: Label,
}

impl Drop for Growth {
    fn drop(self) {
        let Growth {
            parent: _,
            child: _,
            label: _,
        } = self;
    }
}

impl Growth {
    /// An equal growth.
    pub fn copy(&self, alloc: Global) -> Result<Growth, Memory>
        ensures equal { IfOk result (λ copy. copy ≡ self.now) }
    {
        Ok(Growth {
            parent: self.parent,
            child: self.child,
            label: self.label.copy(alloc)?,
        })
    }
}

/// A tree, and all its nodes by their addresses in an order in which each comes after its parent.
pub struct Scheduled {
    pub tree: Tree,
    pub order: List<u32>,
}

impl Drop for Scheduled {
    fn drop(self) {
        let Scheduled { tree: _, order: _ } = self;
    }
}

impl Scheduled {
    /// The tree alone.
    pub fn into_tree(self) -> Tree
        ensures tree { result ≡ self.tree }
    {
        let Scheduled { tree, order: _ } = self;
        tree
    }

    /// An equal tree with an equal order.
    pub fn copy(&self, alloc: Global) -> Result<Scheduled, Memory>
        ensures equal { IfOk result (λ copy. copy ≡ self.now) }
    {
        let tree = self.tree.copy(alloc)?;
        Ok(Scheduled {
            tree,
            order: self.order.copy(alloc)?,
        })
    }
}

/// Why growths give no tree. `Unjoined` comes exactly where there is none, and `growth` is the first place at which
/// something is wrong. `Memory` comes where no memory was to be had.
#[derive(Clone, Copy, PartialEq, Eq)]
pub enum GrowError {
    Unjoined { growth: u32 },
    Memory,
}

impl From<Memory> for GrowError {
    ghost use Rattle.std.specs.Prelude.{◌≡◌};
    ghost use Rattle.tree_core.specs.declared.growth.GrowError.TheVariants.{Memory as OutOfMemory};

    ghost from_gives = { λ _ error. error ≡ OutOfMemory };

    fn from(_error: Memory) -> GrowError {
        GrowError::Memory
    }
}
