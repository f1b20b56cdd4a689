ghost use Rattle.std.specs.Prelude.{ℕ, ◌↔◌, IfOk, OnOk};
ghost use Rattle.gap_pass.specs.Conditions.{IsGreatestOrNone};

use htn_base::Memory;
use std::alloc::Global;

/// Tells for a node the greatest gap up to a bound in which it may stand.
pub trait Conditions {
    // which node, by its address in the table, may stand in which gap
    ghost may: { Self → ℕ → ℕ → Type 0 };

    /// The greatest of the gaps up to `most` in which the node may stand, or `None` where it may stand in none of them.
    fn greatest(&mut self, alloc: Global, node: u32, most: u32) -> Result<Option<u32>, Memory>
        ensures greatest { IfOk result (IsGreatestOrNone (may self.old node) most) }
        ensures stays { OnOk result ((k i : ℕ) → may self.new k i ↔ may self.old k i) };
}
