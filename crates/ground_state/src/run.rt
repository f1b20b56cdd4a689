ghost use Rattle.std.specs.Prelude.{◌≡◌, ◌≤◌, [], length, IfOk, OnErr};
ghost use Rattle.htn_base.specs.Limits.{most_steps};
ghost use Rattle.ground_state.specs.Runs as spec;

use crate::arguments::fill;
use crate::env::Env;
use crate::need::Need;
use crate::state::State;
use crate::truth::is_true;
use crate::verdict::Verdict;
use htn_base::{List, Memory, NameTable};
use plan_model::{FailWhy, GroundAction, Pddl};
use problem_index::Index;
use std::alloc::Global;

/// A run of steps over a problem, from its first state on. So a plan can be checked that is read step by step.
pub struct Run<'p> {
    p: &'p Pddl,
    index: Index,
    env: Env,
    state: State,
}

impl Drop for Run<'_> {
    fn drop(self) {
        let Run {
            p: _,
            index: _,
            env: _,
            state: _,
        } = self;
    }
}

impl<'p> Run<'p> {
    /// A run that has taken no step yet.
    pub fn new(alloc: Global, p: &'p Pddl) -> Result<Run<'p>, Memory>
        requires runnable { spec.IsRunnable p.now }
        ensures fresh { IfOk result (spec.HasTaken p.now []) }
    {
        let names = NameTable::of(alloc, &p.names)?;
        Run::over(alloc, p, names)
    }

    /// The same, where the table of the problem's words is there already.
    pub fn over(alloc: Global, p: &'p Pddl, names: NameTable) -> Result<Run<'p>, Memory>
        requires runnable { spec.IsRunnable p.now }
        requires names { names ≡ p.now.names }
        ensures fresh { IfOk result (spec.HasTaken p.now []) }
    {
        let index = Index::over(alloc, names, &p.types, &p.objects, &p.actions)?;
        let need = Need::of(p)?;
        let env = Env::new(alloc, &List::new(alloc), need.depth, need.arity)?;
        let state = State::new(alloc, &p.init)?;
        Ok(Run {
            p,
            index,
            env,
            state,
        })
    }

    /// Takes the step of these words, or says why it can't be taken. After `Memory` what was taken is as it was. A
    /// quantifier goes over the objects of its type alone, but for a type whose objects are not listed (`problem_index`).
    /// What is noted of a predicate may stand in an array, which grows to the place that a step notes: so a single step may
    /// cost more than what it touches, up to 1048576 places for each atom that it adds.
    pub fn take(
        &mut self,
        alloc: Global,
        name: &[u8],
        args: &[&[u8]],
    ) -> Result<Option<FailWhy>, Memory>
        requires ready { spec.IsReady self.old }
        ensures taken { IfOk result (spec.Takes (spec.words_step name.now args.now) self.old self.new) }
        ensures unchanged { OnErr result (spec.KeepsTaken self.old self.new) }
    {
        let Some(action) = self.index.action(self.p, name) else {
            return Ok(Some(FailWhy::UnknownAction));
        };
        let params = action.params.as_slice();
        let world = self.index.world(&self.p.types, &self.p.objects);
        if !fill(&self.index, &world, params, args, &mut self.env) {
            return Ok(Some(FailWhy::Arguments));
        }
        if !is_true(&action.pre, &mut self.env, &self.state, &world) {
            return Ok(Some(FailWhy::Condition));
        }
        self.state
            .apply_in(alloc, &world, &action.eff, &mut self.env)?;
        Ok(None)
    }

    /// The same, of a ground action. `words`: room for where its arguments stand.
    fn take_action<'s>(
        &mut self,
        alloc: Global,
        step: &'s GroundAction,
        words: &mut Vec<&'s [u8]>,
    ) -> Result<Option<FailWhy>, Memory>
        requires ready { spec.IsReady self.old }
        ensures taken { IfOk result (spec.Takes step.now self.old self.new) }
    {
        words.clear();
        for word in step.args.as_slice() {
            words.push(word.as_slice())?;
        }
        self.take(alloc, step.name.as_slice(), words.as_slice())
    }

    /// Whether the goal is true at the end of the steps taken. It takes no memory.
    pub fn reaches_goal(&mut self) -> bool
        requires ready { spec.IsReady self.old }
        ensures goal { spec.Reaches self.old result }
        ensures kept { spec.KeepsTaken self.old self.new }
    {
        self.env.clear();
        let world = self.index.world(&self.p.types, &self.p.objects);
        is_true(&self.p.goal, &mut self.env, &self.state, &world)
    }
}

/// Whether the list is a plan of the problem; else the first step that fails, counted from 1, and its first cause. A step
/// costs what its condition and its effect touch, a quantifier as much as its type has objects; what may cost more
/// `Run::take` says.
pub fn run_plan(alloc: Global, p: &Pddl, plan: &[GroundAction]) -> Result<Verdict, Memory>
    requires runnable { spec.IsRunnable p.now }
    requires few { length plan.now ≤ most_steps }
    ensures verdict { IfOk result (spec.IsVerdict p.now plan.now) }
{
    let mut run = Run::new(alloc, p)?;
    let mut words = Vec::new(alloc);
    for (i, step) in plan.iter().enumerate() {
        if let Some(why) = run.take_action(alloc, step, &mut words)? {
            let step = i as u32 + 1;
            return Ok(Verdict::Fails { step, why });
        }
    }
    if run.reaches_goal() {
        return Ok(Verdict::Plan);
    }
    Ok(Verdict::Fails {
        step: plan.len() as u32 + 1,
        why: FailWhy::GoalFalse,
    })
}
