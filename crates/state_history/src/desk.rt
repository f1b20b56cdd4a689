ghost use Rattle.std.specs.Prelude.{ℕ, List as Items, ◌≡◌, ◌≤◌, ◌++◌, ◌∷◌, [], ◌↔◌, IsTrue, IfOk, OnOk};
ghost use Rattle.plan_model.specs.plan_meaning.Truth.{value_of, ground};
ghost use Rattle.state_history.specs.Flips.{key_of, IsSoIn};
ghost use Rattle.state_history.specs.Desks.{IsLater, HasValues};

use crate::flips::Flips;
use htn_base::{List, Memory};
use plan_model::{Atom, GroundAtom, Term};
use std::alloc::Global;

/// What a look notes while it goes on.
///
/// `values`: the objects of the variables in force, a schema's parameters first and then those of the quantifiers from outside
/// in. `key`: the predicate and objects of the atom that is looked at. `since`: the first gap since which all that was looked at
/// is the same.
pub struct Desk {
    pub(crate) values: Vec<u32>,
    key: Vec<u32>,
    pub(crate) since: u32,
}

impl Drop for Desk {
    fn drop(self) {
        let Desk {
            values: _,
            key: _,
            since: _,
        } = self;
    }
}

impl Desk {
    /// With no variables in force. It takes no memory yet.
    pub(crate) fn new(alloc: Global) -> Desk {
        Desk {
            values: Vec::new(alloc),
            key: Vec::new(alloc),
            since: 0,
        }
    }

    /// Begins a look with these objects in force.
    pub(crate) fn begin(&mut self, values: &[u32]) -> Result<(), Memory>
        ensures values { OnOk result (self.new.values.items ≡ values.now) }
        ensures since { OnOk result (self.new.since ≡ 0) }
    {
        self.since = 0;
        self.values.clear();
        self.values.extend_from_slice(values)?;
        Ok(())
    }

    /// Puts one more variable in force.
    pub(crate) fn push(&mut self, object: u32) -> Result<(), Memory>
        ensures { OnOk result (HasValues (self.old.values.items ++ object ∷ []) self.old self.new) }
    {
        self.values.push(object)?;
        Ok(())
    }

    /// Takes the innermost variable away.
    pub(crate) fn pop(&mut self)
        ensures { (values : Items ℕ) (o : ℕ) → self.old.values.items ≡ values ++ o ∷ [] → HasValues values self.old self.new }
    {
        self.values.pop();
    }

    /// The object that the term stands for: a variable that is not in force stands for object 0.
    pub(crate) fn value(&self, term: Term) -> u32
        ensures { result ≡ value_of self.now.values.items term }
    {
        match term {
            Term::Var(k) => match self.values.get(k as usize) {
                Some(object) => *object,
                None => 0,
            },
            Term::Obj(object) => object,
        }
    }

    /// Notes the key of what the atom stands for.
    fn fill(&mut self, atom: &Atom) -> Result<(), Memory>
        ensures key { OnOk result (self.new.key.items ≡ key_of (ground self.old.values.items atom.now)) }
        ensures kept { OnOk result (HasValues self.old.values.items self.old self.new) }
    {
        self.key.clear();
        self.key.push(atom.predicate)?;
        for term in atom.args.as_slice() {
            let value = self.value(*term);
            self.key.push(value)?;
        }
        Ok(())
    }

    /// What the atom stands for.
    pub(crate) fn ground(&self, alloc: Global, atom: &Atom) -> Result<GroundAtom, Memory>
        ensures { IfOk result (λ g. g ≡ ground self.now.values.items atom.now) }
    {
        let mut args = List::new(alloc);
        for term in atom.args.as_slice() {
            args.push(self.value(*term))?;
        }
        Ok(GroundAtom {
            predicate: atom.predicate,
            args,
        })
    }

    /// Whether what the atom stands for is true in the gap.
    pub(crate) fn holds(&mut self, atom: &Atom, flips: &Flips, gap: u32) -> Result<bool, Memory>
        ensures truth { IfOk result (λ t. IsSoIn flips.now self.new.since gap
            (λ S. IsTrue t ↔ S (ground self.old.values.items atom.now))) }
        ensures kept { OnOk result (IsLater gap self.old self.new) }
    {
        self.fill(atom)?;
        let look = flips.at(self.key.as_slice(), gap);
        self.since = self.since.max(look.since);
        Ok(look.truth)
    }
}
