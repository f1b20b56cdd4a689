//! The laws, each the contract of a function that does nothing.
//!
//! `of` is any value that the picked network is made of.

ghost use Rattle.tree_core.specs.Laws.{TableIsOfOneTree, TablesTellTrees, ConsistentExactlyWhereTable, LabelsTellTree, GrowthsHaveOneTree, JoinedExactlyWhereTree, OneMoreGrowth, OrderIsListed, SchedulesAreGrowths, UnjoinedHaveNoTree, LabelledIsAlike, RunsStandForTrees};

use plan_model::Compiled;
use plan_model::task_networks::Network;

/// A list is the table of one tree at most.
pub fn table_is_of_one_tree<N: Network, T>(of: &T)
    ensures { TableIsOfOneTree N.net }
{}

/// Each row says of its node its label, its parent, its subtree, its first child and its next sibling.
pub fn tables_tell_trees<N: Network, T>(of: &T)
    ensures { TablesTellTrees N.net }
{}

/// A list of rows is a table exactly where each row hangs together with its first child and its next sibling.
pub fn consistent_exactly_where_table<N: Network, T>(of: &T)
    ensures { ConsistentExactlyWhereTable N.net }
{}

/// Trees with the same labels at the same addresses are one.
pub fn labels_tell_tree<N: Network, T>(of: &T)
    ensures { LabelsTellTree N.net }
{}

/// Growths have one tree at most.
pub fn growths_have_one_tree<N: Network, T>(of: &T)
    ensures { GrowthsHaveOneTree N.net }
{}

/// And they have one exactly where they are joined.
pub fn joined_exactly_where_tree<N: Network, T>(of: &T)
    ensures { JoinedExactlyWhereTree N.net }
{}

/// The order of growths is one in which each node comes behind its parent, and each schedule of a finished tree is such an order.
pub fn schedules_are_growths<N: Network, T>(of: &T)
    ensures listed { OrderIsListed N.net }
    ensures growths { SchedulesAreGrowths N.net }
{}

/// A list of growths grows by one.
pub fn one_more_growth<N: Network, T>(of: &T)
    ensures { OneMoreGrowth N.net }
{}

/// Growths with a defect have no tree.
pub fn unjoined_have_no_tree<N: Network, T>(of: &T)
    ensures { UnjoinedHaveNoTree N.net }
{}

/// The labelled tree of a compiled problem's tree has its nodes, with labels that say the same; and what grows by the
/// labelled growths of that tree stands for it.
pub fn runs_stand_for_trees(of: &Compiled)
    ensures alike { LabelledIsAlike of.now }
    ensures stands { RunsStandForTrees of.now }
{}
