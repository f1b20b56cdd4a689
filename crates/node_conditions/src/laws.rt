//! What is proved of the rows of trees, the contract of a function that does nothing.

ghost use Rattle.node_conditions.specs.Laws.{RowsTellStanding};

use plan_model::Compiled;

/// The rows of a tree say in which gaps its nodes may stand, and with which values.
pub fn rows_tell_standing(c: &Compiled)
    ensures { RowsTellStanding c.now }
{}
