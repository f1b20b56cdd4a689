ghost use Rattle.std.specs.Prelude.{◌≡◌, ◌<◌, length, map, IfOk, IfErr};
ghost use Rattle.plan_model.specs.plan_meaning.Strata.{AreEdges, IsTailRecursive};
ghost use Rattle.bound_calc.specs.stratifier.Conditions.{HaveNoCycle, IsSmallCompiled};
ghost use Rattle.bound_calc.specs.stratifier.Listed.{edge_of};
ghost use Rattle.bound_calc.specs.stratifier.Bad.{AreBadMarks};
ghost use Rattle.bound_calc.specs.stratifier.Stratified.{IsRefused, IsStratified, number_of};

use crate::stratifier::all_edges::edges;
use crate::stratifier::bad::bad_marks;
use crate::stratifier::edge::Edge;
use crate::stratifier::groups::task_groups;
use crate::stratifier::named::{all_ends, named_cycle};
use htn_base::{List, Memory};
use plan_model::Compiled;
use std::alloc::Global;

/// The strata of a problem: a number for each task and the top task, the same for those of one group.
/// An edge goes to a lower number, or to a last child of the same group.
pub struct Ranks {
    numbers: Vec<u32>,
}

impl Drop for Ranks {
    fn drop(self) {
        let Ranks { numbers: _ } = self;
    }
}

impl Ranks {
    /// The rank of the task; the top task's number is that of the tasks.
    pub fn rank(&self, task: u32) -> u32
        requires task { task < length self.now.numbers.items }
        ensures rank { result ≡ number_of self.now task }
    {
        self.numbers[task as usize]
    }

    /// The number of the task's group, which is its rank.
    pub fn group(&self, task: u32) -> u32
        requires task { task < length self.now.numbers.items }
        ensures group { result ≡ number_of self.now task }
    {
        self.numbers[task as usize]
    }
}

/// Why a problem has no strata: the bad cycle that is named, as a bad edge and the shortest walk back,
/// or want of memory.
#[derive(Drop)]
pub enum StratError {
    Cycle(List<Edge>),
    Memory,
}

impl From<Memory> for StratError {
    ghost use Rattle.std.specs.Prelude.{◌≡◌};
    ghost use Rattle.bound_calc.specs.declared.stratifier.ranks.StratError.TheVariants.{Memory as OutOfMemory};

    ghost from_gives = { λ _ error. error ≡ OutOfMemory };

    fn from(_error: Memory) -> StratError {
        StratError::Memory
    }
}

/// The strata of a tail-recursive problem; of any other the named bad cycle.
pub fn stratify(alloc: Global, c: &Compiled) -> Result<Ranks, StratError>
    requires small { IsSmallCompiled c.now }
    requires ordered { HaveNoCycle c.now }
    ensures strata { IfOk result (IsStratified c.now) }
    ensures tail_recursive { IfOk result (λ ranks. IsTailRecursive c.now) }
    ensures refused { IfErr result (IsRefused c.now) }
{
    let edges = edges(alloc, c)?;
    let bad = bad_marks(alloc, c, &edges)?;
    stratify_by(alloc, c, &edges, &bad)
}

/// The same from the edges and the marks of the bad ones.
fn stratify_by(
    alloc: Global,
    c: &Compiled,
    edges: &List<Edge>,
    bad: &List<bool>,
) -> Result<Ranks, StratError>
    requires small { IsSmallCompiled c.now }
    requires edges { AreEdges c.now (map edge_of edges.now) }
    requires bad { AreBadMarks c.now edges.now bad.now }
    ensures strata { IfOk result (IsStratified c.now) }
    ensures tail_recursive { IfOk result (λ ranks. IsTailRecursive c.now) }
    ensures refused { IfErr result (IsRefused c.now) }
{
    let ends = all_ends(alloc, c, edges)?;
    let numbers = task_groups(alloc, c, ends.as_slice())?;
    match named_cycle(alloc, c, edges, ends.as_slice(), bad, numbers.as_slice())? {
        Some(cycle) => Err(StratError::Cycle(cycle)),
        None => Ok(Ranks { numbers }),
    }
}
