//! Laws of hierarchical plans of a compiled problem, each the contract of a function that does nothing.

ghost use Rattle.plan_encoder.specs.Laws.{WordsTell, ShownAreLines, TreesExactlyWhereFitting, SolutionsExactlyWhereGaps, SolutionsExactlyWherePlaced, LatestIsSolution};

use plan_model::Compiled;

/// What the lines of a plan say of a method tells its pairs and its check.
pub fn words_tell(compiled: &Compiled)
    ensures { WordsTell compiled.now }
{}

/// The plan that a finished tree and its order show is that of the tree's lines.
pub fn shown_are_lines(compiled: &Compiled)
    ensures { ShownAreLines compiled.now }
{}

/// A plan whose ids are sound has a tree exactly where some ground method fits each of its lines.
pub fn fitting_plans_have_trees(compiled: &Compiled)
    ensures { TreesExactlyWhereFitting compiled.now }
{}

/// A solution shows a plan exactly where the goal is true after its primitives and its tree has a gap function; the schedule of the
/// latest one is such a solution.
pub fn solutions_are_gaps(compiled: &Compiled)
    ensures exactly { SolutionsExactlyWhereGaps compiled.now }
    ensures placed { SolutionsExactlyWherePlaced compiled.now }
    ensures latest { LatestIsSolution compiled.now }
{}
