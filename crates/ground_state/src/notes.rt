ghost use Rattle.std.specs.Prelude.{◌≡◌, ◌++◌, ◌∷◌, [], ◌≤◌, false, Some, None, length, slice_index_or};
ghost use Rattle.std.specs.Prelude.{MatchBool, IfSome, OnOk, OnErr};
ghost use Rattle.plan_model.specs.plan_meaning.Truth.{values_of};
ghost use Rattle.problem_index.specs.Domains.{IsBelow, IsWithSome};
ghost use Rattle.ground_state.specs.Frames.{frame};
ghost use Rattle.ground_state.specs.Notes as spec;

use crate::env::Env;
use crate::numbers::Numbers;
use htn_base::Memory;
use plan_model::Term;
use problem_index::Domain;
use std::alloc::Global;
use std::collections::BTreeMap;

/// Where more notes than these are kept of lists without numbers, those are taken away that a step leaves false.
const MANY: usize = 4096;

/// Of lists of objects, in order, whether one predicate is true of them. A list of which nothing is noted is one of
/// which it is not true.
///
/// `near`: what is noted of the lists that have numbers, at these. `far`: what is noted of the others.
pub struct Notes {
    numbers: Numbers,
    near: Vec<Option<bool>>,
    far: BTreeMap<Vec<u32>, bool>,
}

impl Drop for Notes {
    fn drop(self) {
        let Notes {
            numbers: _,
            near: _,
            far: _,
        } = self;
    }
}

impl Notes {
    /// No notes. It takes no memory yet.
    pub(crate) fn new(alloc: Global, numbers: Numbers) -> Notes
        ensures { spec.AreNone result }
    {
        Notes {
            numbers,
            near: Vec::new(alloc),
            far: BTreeMap::new(alloc),
        }
    }

    /// What is noted of these objects.
    pub(crate) fn get(&self, args: &[u32]) -> Option<bool>
        ensures { result ≡ spec.noted self.now args.now }
    {
        match self.numbers.of(args) {
            Some(number) => self.at(number),
            None => self.far.get(args).copied(),
        }
    }

    /// What is noted of the objects that the terms stand for. It takes no memory.
    #[inline(always)]
    pub(crate) fn of_terms(&self, env: &mut Env, terms: &[Term]) -> Option<bool>
        requires room { length terms.now ≤ (frame env.old).arity }
        ensures noted { result ≡ spec.noted self.now (values_of (frame env.old).objects terms.now) }
        ensures kept { frame env.new ≡ frame env.old }
    {
        match env.number(terms, self.numbers) {
            Some(number) => self.at(number),
            None => self.filled(env, terms),
        }
    }

    /// The same, by way of a list of the objects. It keeps what is seldom wanted out of the way of the rest.
    #[cold]
    #[inline(never)]
    fn filled(&self, env: &mut Env, terms: &[Term]) -> Option<bool>
        requires room { length terms.now ≤ (frame env.old).arity }
        ensures noted { result ≡ spec.noted self.now (values_of (frame env.old).objects terms.now) }
        ensures kept { frame env.new ≡ frame env.old }
    {
        env.fill(terms);
        self.get(env.args())
    }

    /// What is noted at the number.
    #[inline(always)]
    fn at(&self, number: usize) -> Option<bool>
        ensures { result ≡ slice_index_or self.now.near.items number None }
    {
        match self.near.get(number) {
            Some(note) => *note,
            None => None,
        }
    }

    /// Whether with some object of the domain for one more variable the objects that the terms stand for
    /// are noted as true, or not, as wanted. It is told from number to number, where there is one with
    /// each of the first `count` objects.
    pub(crate) fn finds(
        &self,
        wanted: bool,
        domain: &Domain<'_>,
        count: u32,
        env: &Env,
        terms: &[Term],
    ) -> Option<bool>
        requires below { IsBelow count domain.now }
        ensures { IfSome result (IsWithSome domain.now
            (λ x. spec.holds self.now (values_of ((frame env.now).objects ++ x ∷ []) terms.now)) wanted) }
    {
        let row = env.row(terms, self.numbers, count)?;
        for place in 0..domain.len() {
            if let Some(object) = domain.at(place) {
                let truth = self.at(row.at(object)).unwrap_or(false);
                if truth == wanted {
                    return Some(true);
                }
            }
        }
        Some(false)
    }

    /// Notes as false what is noted as true of the objects that the terms stand for, with each object of the
    /// domain for one more variable. It goes from number to number, where there is one with each of the first
    /// `count` objects. Else nothing is done, and the answer is no.
    pub(crate) fn deny_each(
        &mut self,
        domain: &Domain<'_>,
        count: u32,
        env: &Env,
        terms: &[Term],
    ) -> bool
        requires below { IsBelow count domain.now }
        ensures { MatchBool result
            (spec.AreDenied self.old (spec.AreOf domain.now (frame env.now).objects terms.now) self.new)
            (spec.AreSame self.old self.new) }
    {
        let Some(row) = env.row(terms, self.numbers, count) else {
            return false;
        };
        for place in 0..domain.len() {
            if let Some(object) = domain.at(place) {
                let number = row.at(object);
                if self.at(number).unwrap_or(false) {
                    self.near[number] = Some(false);
                }
            }
        }
        true
    }

    /// Notes this of these objects. After `Memory` the notes are as they were.
    pub(crate) fn insert(&mut self, alloc: Global, args: &[u32], truth: bool) -> Result<(), Memory>
        ensures inserted { OnOk result (spec.IsNoted self.old args.now (Some truth) self.new) }
        ensures unchanged { OnErr result (spec.AreSame self.old self.new) }
    {
        let Some(number) = self.numbers.of(args) else {
            let args = Vec::from_slice(alloc, args)?;
            self.far.insert(args, truth)?;
            return Ok(());
        };
        if number >= self.near.len() {
            self.near.resize(number + 1, None)?;
        }
        self.near[number] = Some(truth);
        Ok(())
    }

    /// Notes this of these objects, where something is noted of them. It takes no memory.
    pub(crate) fn set(&mut self, args: &[u32], truth: bool)
        ensures { spec.IsSet self.old args.now truth self.new }
    {
        let Some(number) = self.numbers.of(args) else {
            if let Some(noted) = self.far.get_mut(args) {
                *noted = truth;
            }
            return;
        };
        if number < self.near.len() && self.near[number].is_some() {
            self.near[number] = Some(truth);
        }
    }

    /// Notes this of the objects that the terms stand for, where something is noted of them. It takes no memory.
    #[inline(always)]
    pub(crate) fn set_terms(&mut self, env: &mut Env, terms: &[Term], truth: bool)
        requires room { length terms.now ≤ (frame env.old).arity }
        ensures set { spec.IsSet self.old (values_of (frame env.old).objects terms.now) truth self.new }
        ensures kept { frame env.new ≡ frame env.old }
    {
        let Some(number) = env.number(terms, self.numbers) else {
            self.set_filled(env, terms, truth);
            return;
        };
        if number < self.near.len() && self.near[number].is_some() {
            self.near[number] = Some(truth);
        }
    }

    /// The same, by way of a list of the objects.
    #[cold]
    #[inline(never)]
    fn set_filled(&mut self, env: &mut Env, terms: &[Term], truth: bool)
        requires room { length terms.now ≤ (frame env.old).arity }
        ensures set { spec.IsSet self.old (values_of (frame env.old).objects terms.now) truth self.new }
        ensures kept { frame env.new ≡ frame env.old }
    {
        env.fill(terms);
        self.set(env.args(), truth);
    }

    /// Whether so many notes are kept of lists without numbers that spare ones are taken away.
    pub(crate) fn are_many(&self) -> bool {
        self.far.len() > MANY
    }

    /// Takes away what is noted of these objects, where they have no number and are noted as false, among many notes.
    /// It is then as if nothing were noted.
    pub(crate) fn forget(&mut self, args: &[u32])
        ensures { spec.HoldSame self.old self.new }
    {
        if self.are_many() && self.numbers.of(args).is_none() {
            if let Some(false) = self.get(args) {
                self.far.remove(args);
            }
        }
    }
}
