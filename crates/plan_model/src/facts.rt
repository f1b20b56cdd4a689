ghost use Rattle.std.specs.Prelude.{◌≡◌, ◌++◌, ◌∷◌, [], length, slice_get, IfOk, OnOk, OnErr};

use htn_base::{Memory, PackedPart, PackedRows};
use std::alloc::Global;
use std::marker::Model;

/// A ground atom of a list of facts: a predicate with objects, as many as it has parameters. Contracts see the ground
/// atom.
#[derive(Drop)]
pub struct Fact<'a> {
    pub predicate: u32,
    pub args: PackedPart<'a>,
}

impl<'a> Model for Fact<'a> {
    ghost use Rattle.plan_model.specs.declared.terms.GroundAtom.{GroundAtom};

    ghost Value = { GroundAtom };

    ghost view = { λ f. record { predicate = f.predicate; args = f.args } };
}

/// Ground atoms in order, repeats too. Each is a row: its predicate with its objects. Contracts see the list of the ground
/// atoms.
pub struct Facts {
    rows: PackedRows,
}

impl Drop for Facts {
    fn drop(self) {
        let Facts { rows: _ } = self;
    }
}

impl Model for Facts {
    ghost use Rattle.std.specs.Prelude.{List};
    ghost use Rattle.plan_model.specs.declared.terms.GroundAtom.{GroundAtom};
    ghost use Rattle.plan_model.specs.Facts.{facts};

    ghost Value = { List GroundAtom };

    ghost view = { λ f. facts f.rows };
}

impl Facts {
    ghost use Rattle.plan_model.specs.Facts.{atom_of};

    /// No facts. They take no memory yet.
    pub fn new(alloc: Global) -> Facts
        ensures none { result ≡ [] }
    {
        Facts {
            rows: PackedRows::new(alloc),
        }
    }

    /// No facts, with room for so many, and for so many objects of all together, of a byte each.
    pub fn with_room(alloc: Global, facts: usize, objects: usize) -> Result<Facts, Memory>
        ensures none { IfOk result (λ facts. facts ≡ []) }
    {
        let rows = PackedRows::with_room(alloc, facts, objects)?;
        Ok(Facts { rows })
    }

    /// The number of facts.
    pub fn len(&self) -> usize
        ensures length { result ≡ length self.now }
    {
        self.rows.len()
    }

    /// The fact at place `i` from 0, or `None` past the end.
    pub fn get(&self, i: usize) -> Option<Fact<'_>>
        ensures fact { result ≡ slice_get self.now i }
    {
        let row = self.rows.get(i)?;
        Some(Fact {
            predicate: row.head,
            args: row.rest,
        })
    }

    /// Puts a fact at the end. More than 4,294,967,295 objects in all want memory. After `Memory` the facts are as they were.
    pub fn push(&mut self, predicate: u32, args: &[u32]) -> Result<(), Memory>
        ensures pushed { OnOk result (self.new ≡ self.old ++ atom_of predicate args.now ∷ []) }
        ensures unchanged { OnErr result (self.new ≡ self.old) }
    {
        self.rows.push(predicate, args)
    }
}
