ghost use Rattle.std.specs.Prelude.{◌≡◌};

use htn_base::List;
use tree_core::Tree;

/// The tree of a plan, and the addresses of its primitives in the order of their lines.
pub struct PlanTree {
    pub tree: Tree,
    pub actions: List<u32>,
}

impl Drop for PlanTree {
    fn drop(self) {
        let PlanTree {
            tree: _,
            actions: _,
        } = self;
    }
}

impl PlanTree {
    /// The tree and the addresses.
    pub fn into_parts(self) -> (Tree, List<u32>)
        ensures tree { result.0 ≡ self.tree }
        ensures actions { result.1 ≡ self.actions }
    {
        let PlanTree { tree, actions } = self;
        (tree, actions)
    }
}
