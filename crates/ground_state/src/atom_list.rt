ghost use Rattle.std.specs.Prelude.{◌≡◌, ◌++◌, ◌∷◌, [], OnOk, OnErr};
ghost use Rattle.plan_model.specs.plan_meaning.Truth.{ground};
ghost use Rattle.ground_state.specs.Frames.{frame};

use crate::env::Env;
use htn_base::Memory;
use plan_model::Atom;
use std::alloc::Global;
use std::marker::Model;

/// A ground atom whose room serves another one after it.
pub struct KeptAtom {
    predicate: u32,
    args: Vec<u32>,
}

impl Drop for KeptAtom {
    fn drop(self) {
        let KeptAtom {
            predicate: _,
            args: _,
        } = self;
    }
}

impl Model for KeptAtom {
    ghost use Rattle.plan_model.specs.declared.terms.GroundAtom.{GroundAtom};

    ghost Value = { GroundAtom };

    ghost view = { λ a. record { predicate = a.predicate; args = a.args.items } };
}

impl KeptAtom {
    /// The number of its predicate.
    pub fn predicate(&self) -> u32
        ensures { result ≡ self.now.predicate }
    {
        self.predicate
    }

    /// Its objects.
    pub fn objects(&self) -> &[u32]
        ensures { result.now ≡ self.now.args }
    {
        self.args.as_slice()
    }
}

/// A list of ground atoms that keeps its room where it is emptied, the first so many of those that are kept.
pub struct AtomList {
    kept: Vec<KeptAtom>,
    count: usize,
}

impl Drop for AtomList {
    fn drop(self) {
        let AtomList { kept: _, count: _ } = self;
    }
}

impl Model for AtomList {
    ghost use Rattle.std.specs.Prelude.{List, take};
    ghost use Rattle.plan_model.specs.declared.terms.GroundAtom.{GroundAtom};

    ghost Value = { List GroundAtom };

    ghost view = { λ list. take list.count list.kept.items };
}

impl AtomList {
    /// The empty list. It takes no memory yet.
    pub(crate) fn new(alloc: Global) -> AtomList
        ensures { result ≡ [] }
    {
        AtomList {
            kept: Vec::new(alloc),
            count: 0,
        }
    }

    /// Empties the list.
    pub(crate) fn clear(&mut self)
        ensures { self.new ≡ [] }
    {
        self.count = 0;
    }

    /// All atoms in order.
    pub(crate) fn as_slice(&self) -> &[KeptAtom]
        ensures { result.now ≡ self.now }
    {
        let kept = self.kept.as_slice();
        &kept[..self.count.min(kept.len())]
    }

    /// Puts the ground atom that the atom stands for at the end. After `Memory` the list is as it was.
    pub(crate) fn put(&mut self, alloc: Global, env: &Env, atom: &Atom) -> Result<(), Memory>
        ensures put { OnOk result
            (self.new ≡ self.old ++ ground (frame env.now).objects atom.now ∷ []) }
        ensures unchanged { OnErr result (self.new ≡ self.old) }
    {
        if self.count < self.kept.len() {
            let kept = &mut self.kept[self.count];
            kept.predicate = atom.predicate;
            env.write(atom.args.as_slice(), &mut kept.args)?;
            self.count += 1;
            return Ok(());
        }
        let mut args = Vec::new(alloc);
        env.write(atom.args.as_slice(), &mut args)?;
        self.kept.push(KeptAtom {
            predicate: atom.predicate,
            args,
        })?;
        self.count = self.kept.len();
        Ok(())
    }
}

/// The atoms that an effect adds, and those that it deletes.
pub struct AtomLists {
    pub(crate) adds: AtomList,
    pub(crate) deletes: AtomList,
}

impl Drop for AtomLists {
    fn drop(self) {
        let AtomLists {
            adds: _,
            deletes: _,
        } = self;
    }
}

impl AtomLists {
    /// No atoms. It takes no memory yet.
    pub(crate) fn new(alloc: Global) -> AtomLists {
        AtomLists {
            adds: AtomList::new(alloc),
            deletes: AtomList::new(alloc),
        }
    }
}
