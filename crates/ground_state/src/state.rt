ghost use Rattle.std.specs.Prelude.{◌≡◌, ◌⊎◌, ◌++◌, ◌∷◌, [], ◌≤◌, ◌↔◌, false, length, IsTrue, Contains, Some, None};
ghost use Rattle.std.specs.Prelude.{IfSome, IfOk, OnOk, OnErr};
ghost use Rattle.plan_model.specs.plan_meaning.Truth.{ground};
ghost use Rattle.problem_index.specs.Domains.{IsBelow, IsWithSome};
ghost use Rattle.ground_state.specs.Frames.{frame};
ghost use Rattle.ground_state.specs.States as spec;

use crate::atom_list::AtomLists;
use crate::env::Env;
use crate::notes::Notes;
use crate::numbers::Numbers;
use htn_base::Memory;
use plan_model::{Atom, Facts, GroundAtom};
use problem_index::Domain;
use std::alloc::Global;

/// More predicates than these count as want of memory: no text of at most 16 megabytes declares so many.
const MOST_PREDICATES: u32 = 1 << 24;

/// Of the atoms of so many predicates, the first ones, those of few and small objects have numbers less
/// than 2^16, and of the first `ROOMY_PREDICATES` less than 2^20. This bounds the memory that a state of
/// few atoms takes to some 100 megabytes.
const NUMBERED_PREDICATES: usize = 128;

const ROOMY_PREDICATES: usize = 32;

/// A set of ground atoms, those that are true. `facts` has what is noted of each predicate, at its number: an atom that is
/// noted as false is one that a step makes true or has made false.
///
/// `most`: the greatest object of the first state. `crowded`: whether there were ever so many notes of one predicate that
/// spare ones are taken away. `touched`: what the last step touched, kept for its room alone.
pub struct State {
    pub(crate) facts: Vec<Notes>,
    most: u32,
    pub(crate) crowded: bool,
    pub(crate) touched: AtomLists,
}

impl Drop for State {
    fn drop(self) {
        let State {
            facts: _,
            most: _,
            crowded: _,
            touched: _,
        } = self;
    }
}

impl State {
    /// The state in which these atoms are true, and no others.
    pub fn new(alloc: Global, atoms: &Facts) -> Result<State, Memory>
        ensures atoms { IfOk result (λ s. spec.Has s (Contains atoms.now)) }
    {
        let mut state = State {
            facts: Vec::new(alloc),
            most: greatest(atoms),
            crowded: false,
            touched: AtomLists::new(alloc),
        };
        let mut args = Vec::new(alloc);
        for i in 0..atoms.len() {
            if let Some(atom) = atoms.get(i) {
                atom.args.copy_into(&mut args)?;
                state.insert(alloc, atom.predicate, args.as_slice(), true)?;
            }
        }
        Ok(state)
    }

    /// Whether the atom is one of the set. It takes no memory.
    pub fn has(&self, a: &GroundAtom) -> bool
        ensures { IsTrue result ↔ spec.atoms self.now a.now }
    {
        self.note(a.predicate, a.args.as_slice()).unwrap_or(false)
    }

    /// Whether what the atom stands for is one of the set. It takes no memory.
    #[inline(always)]
    pub(crate) fn has_atom(&self, env: &mut Env, atom: &Atom) -> bool
        requires { length atom.now.args ≤ (frame env.old).arity }
        ensures truth { result ≡ spec.has_ground self.now (ground (frame env.old).objects atom.now) }
        ensures kept { frame env.new ≡ frame env.old }
    {
        self.note_atom(env, atom).unwrap_or(false)
    }

    /// Whether with some object of the domain for one more variable what the atom stands for is true, or
    /// not, as wanted. It is told only where that takes no look-up of whole atoms. `count`: the number of all objects.
    #[inline(always)]
    pub(crate) fn finds(
        &self,
        wanted: bool,
        domain: &Domain<'_>,
        count: u32,
        env: &Env,
        atom: &Atom,
    ) -> Option<bool>
        requires below { IsBelow count domain.now }
        ensures { IfSome result (IsWithSome domain.now
            (λ x. spec.has_ground self.now (ground ((frame env.now).objects ++ x ∷ []) atom.now)) wanted) }
    {
        let notes = self.facts.get(atom.predicate as usize)?;
        notes.finds(wanted, domain, count, env, atom.args.as_slice())
    }

    /// What is noted of what the atom stands for.
    #[inline(always)]
    pub(crate) fn note_atom(&self, env: &mut Env, atom: &Atom) -> Option<bool>
        requires room { length atom.now.args ≤ (frame env.old).arity }
        ensures note { result ≡ spec.note_of self.now (ground (frame env.old).objects atom.now) }
        ensures kept { frame env.new ≡ frame env.old }
    {
        match self.facts.get(atom.predicate as usize) {
            Some(notes) => notes.of_terms(env, atom.args.as_slice()),
            None => None,
        }
    }

    /// What is noted of the predicate and these objects.
    pub(crate) fn note(&self, predicate: u32, args: &[u32]) -> Option<bool>
        ensures { result ≡ spec.note self.now predicate args.now }
    {
        match self.facts.get(predicate as usize) {
            Some(notes) => notes.get(args),
            None => None,
        }
    }

    /// Puts the predicate of these objects to the set. After `Memory` the set is as it was.
    pub fn add(&mut self, alloc: Global, predicate: u32, objects: &[u32]) -> Result<(), Memory>
        ensures added { OnOk result
            (spec.Has self.new (λ g. spec.atoms self.old g ⊎ (g ≡ spec.atom predicate objects.now))) }
        ensures unchanged { OnErr result (spec.IsSame self.old self.new) }
    {
        self.insert(alloc, predicate, objects, true)
    }

    /// Notes this of the atom. After `Memory` the state is as it was.
    pub(crate) fn insert(
        &mut self,
        alloc: Global,
        predicate: u32,
        args: &[u32],
        truth: bool,
    ) -> Result<(), Memory>
        ensures inserted { OnOk result
            (spec.IsNoted self.old (spec.atom predicate args.now) (Some truth) self.new) }
        ensures unchanged { OnErr result (spec.IsSame self.old self.new) }
    {
        if predicate >= MOST_PREDICATES {
            return Err(Memory);
        }
        for number in self.facts.len()..predicate as usize + 1 {
            let room = match number {
                ..ROOMY_PREDICATES => 1 << 20,
                ..NUMBERED_PREDICATES => 1 << 16,
                _ => 0,
            };
            let most = self.most;
            let notes = Notes::new(alloc, Numbers { most, room });
            self.facts.push(notes)?;
        }
        match self.facts.get_mut(predicate as usize) {
            Some(notes) => {
                notes.insert(alloc, args, truth)?;
                self.crowded = self.crowded || notes.are_many();
                Ok(())
            }
            None => Err(Memory),
        }
    }

    /// Notes this of the atom, where something is noted of it. It takes no memory.
    pub(crate) fn set(&mut self, predicate: u32, args: &[u32], truth: bool)
        ensures { spec.IsSet self.old (spec.atom predicate args.now) truth self.new }
    {
        if let Some(notes) = self.facts.get_mut(predicate as usize) {
            notes.set(args, truth);
        }
    }

    /// Notes this of what the atom stands for, where something is noted of it. It takes no memory.
    #[inline(always)]
    pub(crate) fn set_atom(&mut self, env: &mut Env, atom: &Atom, truth: bool)
        requires room { length atom.now.args ≤ (frame env.old).arity }
        ensures set { spec.IsSet self.old (ground (frame env.old).objects atom.now) truth self.new }
        ensures kept { frame env.new ≡ frame env.old }
    {
        if let Some(notes) = self.facts.get_mut(atom.predicate as usize) {
            notes.set_terms(env, atom.args.as_slice(), truth);
        }
    }

    /// Takes away what is noted of the predicate and these objects, where it is noted as false, among many notes of the
    /// predicate.
    pub(crate) fn forget_atom(&mut self, predicate: u32, args: &[u32])
        ensures { spec.IsSame self.old self.new }
    {
        if let Some(notes) = self.facts.get_mut(predicate as usize) {
            notes.forget(args);
        }
    }
}

/// The greatest object of the atoms.
fn greatest(atoms: &Facts) -> u32 {
    let mut most = 0;
    for i in 0..atoms.len() {
        if let Some(atom) = atoms.get(i) {
            for j in 0..atom.args.len() {
                if let Some(object) = atom.args.get(j) {
                    most = most.max(object);
                }
            }
        }
    }
    most
}
