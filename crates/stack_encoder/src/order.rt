ghost use Rattle.std.specs.Prelude.{◌≡◌, ◌<◌, ◌≤◌, ◌^◌, ◌↔◌, IsTrue, Some, Contains, length, position, slice_get, MatchOption};
ghost use Rattle.plan_model.specs.Pairs.{Pairs};
ghost use Rattle.plan_model.specs.plan_meaning.Compilation.{same_pair};
ghost use Rattle.plan_model.specs.task_networks.Order.{IsLine};
ghost use Rattle.problem_texts.specs.ArePrinted.{IsCompiledProblem};
ghost use Rattle.stack_encoding.specs.TotalOrder.{IsOneAfterAnother, IsTotallyOrdered, IsFirstUnordered};

use plan_model::{Compiled, MethodPlan, Pair};

/// The place of the first method that is not totally ordered, the top method's being 0; `None` where all are. It takes no memory, and
/// time in the pairs where these are written along the line.
pub fn untotal(c: &Compiled) -> Option<u32>
    requires compiled { IsCompiledProblem c.now }
    requires few { length c.now.methods < 2 ^ 32 }
    ensures { MatchOption result (IsTotallyOrdered c.now) (IsFirstUnordered c.now) }
{
    let methods = c.methods.as_slice();
    for m in 0..methods.len() {
        if !is_one_after_another(&methods[m]) {
            return Some(m as u32);
        }
    }
    None
}

/// Whether each two neighbours of the method's line are a written pair. They are exactly where the line is cut at every place.
fn is_one_after_another(plan: &MethodPlan) -> bool
    requires { IsLine (Pairs plan.now.schema.pairs) (length plan.now.schema.children) plan.now.line }
    ensures { IsTrue result ↔ IsOneAfterAnother plan.now }
{
    let line = plan.line.as_slice();
    let pairs = plan.schema.pairs.as_slice();
    let mut place = 0;
    for k in 1..line.len() {
        let neighbours = Pair {
            first: line[k - 1],
            then: line[k],
        };
        match place_from(pairs, place, &neighbours) {
            Some(found) => place = found,
            None => return false,
        }
    }
    true
}

/// A place of the pair, sought from `start` on and then from the first place; `None` where there is none.
fn place_from(pairs: &[Pair], start: usize, wanted: &Pair) -> Option<usize>
    requires { start ≤ length pairs.now }
    ensures { MatchOption result (Contains pairs.now wanted.now → ⊥) (λ k. (k < length pairs.now) × Contains pairs.now wanted.now) }
{
    match place_of(&pairs[start..], wanted) {
        Some(k) => Some(start + k),
        None => place_of(&pairs[..start], wanted),
    }
}

/// The first place of the pair.
fn place_of(pairs: &[Pair], wanted: &Pair) -> Option<usize>
    ensures { result ≡ position (λ p. same_pair p wanted.now) pairs.now }
{
    pairs
        .iter()
        .position(|p| p.first == wanted.first && p.then == wanted.then)
}
