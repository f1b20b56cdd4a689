//! The laws, each the contract of a function that does nothing.

ghost use Rattle.plan_model.specs.plan_meaning.Compilation.{IsCompiled};
ghost use Rattle.live_parts.specs.Live.{Parts, AreLive};
ghost use Rattle.live_parts.specs.Kept.{Kept, AreKept, IsNumbered};
ghost use Rattle.live_parts.specs.Pruned.{pruned};
ghost use Rattle.live_parts.specs.Laws as spec;

use plan_model::{Checks, Compiled, Hddl};

/// Each method, check and action of a solution is live, and reached from the top method through live methods.
pub fn nodes_are_kept(problem: &Hddl, checks: &Checks, compiled: &Compiled)
    requires numbered { IsNumbered problem.now }
    requires compiled { IsCompiled problem.now checks.now compiled.now }
    ensures { spec.NodesAreKept problem.now compiled.now }
{}

/// A problem with a solution has a live top method, and its goal may be so.
pub fn solved_may_be_solved(problem: &Hddl, checks: &Checks, compiled: &Compiled)
    requires numbered { IsNumbered problem.now }
    requires compiled { IsCompiled problem.now checks.now compiled.now }
    ensures { spec.SolvedMayBeSolved problem.now compiled.now }
{}

/// The solutions of the pruned problem are those of the problem, once schemas are read by their names.
pub fn pruned_has_the_same_solutions(
    problem: &Hddl,
    checks: &Checks,
    compiled: &Compiled,
    small: &Compiled,
)
    requires numbered { IsNumbered problem.now }
    requires compiled { IsCompiled problem.now checks.now compiled.now }
    ensures same { (live : Parts) (kept : Kept) → AreLive problem.now live → AreKept problem.now live kept
        → IsCompiled (pruned kept problem.now) checks.now small.now
        → spec.SameTreesSolve problem.now kept small.now compiled.now }
    ensures as_wide { (live : Parts) (kept : Kept) → AreLive problem.now live → AreKept problem.now live kept
        → IsCompiled (pruned kept problem.now) checks.now small.now
        → spec.SameTreesAreAsWide problem.now kept small.now compiled.now }
    ensures stay { (live : Parts) (kept : Kept) → AreLive problem.now live → AreKept problem.now live kept
        → IsCompiled (pruned kept problem.now) checks.now small.now
        → spec.SolutionsStay problem.now kept small.now compiled.now }
    ensures come_back { (live : Parts) (kept : Kept) → AreLive problem.now live → AreKept problem.now live kept
        → IsCompiled (pruned kept problem.now) checks.now small.now
        → spec.SolutionsComeBack problem.now kept small.now compiled.now }
    ensures one { (live : Parts) (kept : Kept) → AreLive problem.now live → AreKept problem.now live kept
        → IsCompiled (pruned kept problem.now) checks.now small.now
        → spec.SameTreeIsOne problem.now kept small.now compiled.now }
{}

/// The same lists of ground actions spell a solution of the pruned problem and one of the problem, for each number of slots.
pub fn pruned_has_the_same_plans(
    problem: &Hddl,
    checks: &Checks,
    compiled: &Compiled,
    small: &Compiled,
)
    requires numbered { IsNumbered problem.now }
    requires compiled { IsCompiled problem.now checks.now compiled.now }
    ensures { (live : Parts) (kept : Kept) → AreLive problem.now live → AreKept problem.now live kept
        → IsCompiled (pruned kept problem.now) checks.now small.now
        → spec.SpelledAreSame problem.now kept small.now compiled.now }
{}

/// There are least live parts, and no others.
pub fn live_exactly(problem: &Hddl)
    ensures { spec.LiveExactly problem.now }
{}

/// What a search asks for that goes on from parts among all closed ones is among all closed ones too; and it can be told
/// whether what the parts say of the top method and of the goal is so.
pub fn live_parts_grow(problem: &Hddl)
    ensures steps { spec.StepsAreForced problem.now }
    ensures told { spec.SolvedIsTold problem.now }
{}

/// Each live part has a reason to be live; where the problem may be solved, what is kept is live, and each kept task has a
/// kept method.
pub fn live_parts_have_reasons(problem: &Hddl)
    ensures live { spec.LiveAreSupported problem.now }
    ensures kept { spec.KeptAreLive problem.now }
{}

/// A search that starts at the top method's subtasks and goes on through live methods ends with what is reached; what is kept
/// is one list of each kind.
pub fn kept_exactly(problem: &Hddl)
    requires numbered { IsNumbered problem.now }
    ensures search { (live : Parts) → spec.HeadsAreReached problem.now live }
    ensures one { (live : Parts) → spec.KeptExactly problem.now live }
{}
