ghost use Rattle.std.specs.Prelude.{ℕ, ◌≡◌, ◌+◌, ◌*◌, ◌^◌, ◌≤◌, ◌<◌, ◌++◌, ◌∷◌, [], length, IfSome, IfOk, OnOk};
ghost use Rattle.std.specs.Bool.{OnTrue};
ghost use Rattle.plan_model.specs.plan_meaning.Truth.{value_of, values_of};
ghost use Rattle.ground_state.specs.Frames.{Frame, frame, pushed, cleared};
ghost use Rattle.ground_state.specs.Numbers.{number_of, HasRow};

use crate::numbers::{Numbers, Row};
use htn_base::{List, Memory};
use plan_model::Term;
use std::alloc::Global;

/// The objects of the variables in force, the schema's parameters first and then those of the quantifiers from
/// outside in. Its room is taken at once, so that no test of a formula takes memory.
///
/// `args`: the arguments of the atom that is looked up.
pub struct Env {
    values: Vec<u32>,
    args: Vec<u32>,
}

impl Drop for Env {
    fn drop(self) {
        let Env { values: _, args: _ } = self;
    }
}

impl Env {
    /// The environment in which these are in force, with room for `depth` variables and for `arity` arguments of an
    /// atom.
    pub fn new(alloc: Global, args: &List<u32>, depth: u32, arity: u32) -> Result<Env, Memory>
        ensures objects { IfOk result (λ env. (frame env).objects ≡ args.now) }
        ensures depth { IfOk result (λ env. depth ≤ (frame env).room) }
        ensures arity { IfOk result (λ env. arity ≤ (frame env).arity) }
    {
        let mut values = Vec::with_capacity(alloc, depth as usize)?;
        values.extend_from_slice(args.as_slice())?;
        let args = Vec::with_capacity(alloc, arity as usize)?;
        Ok(Env { values, args })
    }

    /// The objects of the variables in force.
    pub fn objects(&self) -> &[u32]
        ensures { result.now ≡ (frame self.now).objects }
    {
        self.values.as_slice()
    }

    /// Takes all variables away.
    pub fn clear(&mut self)
        ensures { frame self.new ≡ cleared (frame self.old) }
    {
        self.values.clear();
    }

    /// Puts one more variable in force.
    pub fn push(&mut self, object: u32)
        requires { length (frame self.old).objects < (frame self.old).room }
        ensures { frame self.new ≡ pushed (frame self.old) object }
    {
        self.values.push_reserved(object);
    }

    /// Takes the innermost variable away.
    pub(crate) fn pop(&mut self)
        ensures { (f : Frame) (o : ℕ) → frame self.old ≡ pushed f o → frame self.new ≡ f }
    {
        self.values.pop();
    }

    /// The object that the term stands for: a variable that is not in force stands for object 0.
    pub fn value(&self, term: Term) -> u32
        ensures { result ≡ value_of (frame self.now).objects term }
    {
        match term {
            Term::Var(k) => match self.values.get(k as usize) {
                Some(object) => *object,
                None => 0,
            },
            Term::Obj(object) => object,
        }
    }

    /// Writes down the objects that the terms stand for, in place of what was written there.
    pub(crate) fn write(&self, terms: &[Term], into: &mut Vec<u32>) -> Result<(), Memory>
        ensures { OnOk result (into.new.items ≡ values_of (frame self.now).objects terms.now) }
    {
        into.clear();
        for term in terms {
            into.push(self.value(*term))?;
        }
        Ok(())
    }

    /// Whether there is room for as many arguments as there are terms.
    pub(crate) fn has_room(&self, terms: &[Term]) -> bool
        ensures { OnTrue result (length terms.now ≤ (frame self.now).arity) }
    {
        terms.len() <= self.args.capacity()
    }

    /// Fills in the arguments that the terms stand for.
    pub(crate) fn fill(&mut self, terms: &[Term])
        requires { length terms.now ≤ (frame self.old).arity }
        ensures args { self.new.args.items ≡ values_of (frame self.old).objects terms.now }
        ensures kept { frame self.new ≡ frame self.old }
    {
        self.args.clear();
        for term in terms {
            let value = self.value(*term);
            self.args.push_reserved(value);
        }
    }

    /// The number of the objects that the terms stand for.
    #[inline(always)]
    pub(crate) fn number(&self, terms: &[Term], numbers: Numbers) -> Option<usize>
        ensures { result ≡ number_of numbers (values_of (frame self.now).objects terms.now) }
    {
        let mut number = 1;
        for i in (0..terms.len()).rev() {
            number = numbers.with(number, self.value(terms[i]))?;
        }
        Some(number as usize)
    }

    /// The numbers of the objects that the terms stand for, with each of the first `count` objects for
    /// one more variable, where each has one.
    pub(crate) fn row(&self, terms: &[Term], numbers: Numbers, count: u32) -> Option<Row>
        ensures { IfSome result (HasRow numbers (frame self.now).objects terms.now count) }
    {
        let (room, width) = (numbers.room as u64, numbers.most as u64 + 2);
        let mut first = 1;
        let mut step = 0;
        for i in (0..terms.len()).rev() {
            let digit = self.digit(terms[i]);
            if digit.first + digit.step * count as u64 > numbers.most as u64 + digit.step {
                return None;
            }
            first = first * width + digit.first;
            step = step * width + digit.step;
            if first >= room || step >= room || first + step * count as u64 >= room {
                return None;
            }
        }
        Some(Row { first, step })
    }

    /// The object that the term stands for, with each object for one more variable: that object itself,
    /// or always the same.
    fn digit(&self, term: Term) -> Row
        ensures value { (x : ℕ) → value_of ((frame self.now).objects ++ x ∷ []) term ≡ result.first + result.step * x }
        ensures first { result.first < 2 ^ 32 }
        ensures step { result.step ≤ 1 }
    {
        if let Term::Var(k) = term {
            if k as usize == self.values.len() {
                return Row { first: 0, step: 1 };
            }
        }
        let object = self.value(term);
        Row {
            first: object as u64,
            step: 0,
        }
    }

    /// The arguments that were filled in last.
    pub(crate) fn args(&self) -> &[u32]
        ensures { result.now ≡ self.now.args.items }
    {
        self.args.as_slice()
    }
}
