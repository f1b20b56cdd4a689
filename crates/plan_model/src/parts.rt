ghost use Rattle.std.specs.Prelude.{◌≡◌, ℕ, ◌<◌, ◌≤◌, ◌↔◌, All, IsTrue, IsFalse, length};
ghost use Rattle.plan_model.specs.Typing as typing;
ghost use Rattle.plan_model.specs.Parts.{has, unmarked, AreMarkedToo, AreListed, AreListedParents, IsMarkedFurther, IsClosedUnder};

use crate::types::{Parent, Types};

/// More than the numbers of all types.
const ROOM: usize = 1024;

/// The types that are a part of one type, which may be a union.
///
/// `whole`: each type is one of them. `marks`: those to which a chain of parents leads down.
#[derive(Drop)]
pub struct Parts {
    of: u32,
    whole: bool,
    marks: [bool; ROOM],
}

impl Parts {
    /// The parts of the type of this number. It takes no memory, and few passes over the pairs where they stand by the
    /// child's number and have no cycle.
    pub fn new(types: &Types, of: u32) -> Parts
        requires { AreListed types.now }
        ensures { (ty : ℕ) → IsTrue (has result ty) ↔ typing.IsPart types.now ty of }
    {
        let mut marks = [false; ROOM];
        mark_all(&mut marks, &[of]);
        if let Some(members) = types.union_at(of) {
            mark_all(&mut marks, members.as_slice());
        }
        let whole = marks[0];
        let parents = types.parents.as_slice();
        while mark_children(parents, &mut marks) {
            climb_all(parents, &mut marks);
        }
        Parts { of, whole, marks }
    }

    /// Whether the type, which is no union, is one of the parts.
    pub fn have(&self, ty: u32) -> bool
        ensures { result ≡ has self.now ty }
    {
        self.whole || ty == self.of || matches!(self.marks.get(ty as usize), Some(true))
    }

    /// Whether each of the types is one of the parts.
    pub fn have_all(&self, types: &[u32]) -> bool
        ensures { IsTrue result ↔ All (λ ty. IsTrue (has self.now ty)) types.now }
    {
        types.iter().all(|ty| self.have(*ty))
    }
}

/// Marks each of the types for which there is a mark.
fn mark_all(marks: &mut [bool], types: &[u32])
    ensures { AreMarkedToo types.now marks.old marks.new }
{
    for ty in types {
        let place = *ty as usize;
        if place < marks.len() {
            marks[place] = true;
        }
    }
}

/// Climbs from each type, and so comes to every part where the pairs stand by the child's number and have no cycle.
fn climb_all(parents: &[Parent], marks: &mut [bool])
    requires room { length marks.old ≡ 1024 }
    requires listed { AreListedParents (length marks.old) parents.now }
    ensures { IsMarkedFurther parents.now marks.old marks.new }
{
    let mut seen = [false; ROOM];
    for pair in parents {
        climb(parents, pair.child as usize, &mut seen, marks);
    }
}

/// Marks the type where one of its parents is marked, after climbing from each of these. A type that was seen before is left
/// as it is.
fn climb(parents: &[Parent], ty: usize, seen: &mut [bool], marks: &mut [bool])
    requires room { length seen.old ≡ length marks.old }
    requires listed { AreListedParents (length marks.old) parents.now }
    requires within { ty < length marks.old }
    ensures further { IsMarkedFurther parents.now marks.old marks.new }
    ensures seen { unmarked seen.new ≤ unmarked seen.old }
{
    if seen[ty] {
        return;
    }
    seen[ty] = true;
    let first = parents.partition_point(|pair| (pair.child as usize) < ty);
    for pair in &parents[first..] {
        if pair.child as usize != ty {
            break;
        }
        climb(parents, pair.parent as usize, seen, marks);
        if marks[pair.parent as usize] {
            marks[ty] = true;
        }
    }
}

/// Marks the types with a marked parent, in one pass over the pairs. It tells whether one was not marked before.
fn mark_children(parents: &[Parent], marks: &mut [bool]) -> bool
    requires { AreListedParents (length marks.old) parents.now }
    ensures further { IsMarkedFurther parents.now marks.old marks.new }
    ensures fewer { IsTrue result → unmarked marks.new < unmarked marks.old }
    ensures closed { IsFalse result → IsClosedUnder parents.now marks.new }
{
    let mut found = false;
    for pair in parents {
        if marks[pair.parent as usize] && !marks[pair.child as usize] {
            marks[pair.child as usize] = true;
            found = true;
        }
    }
    found
}
