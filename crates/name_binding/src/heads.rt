ghost use Rattle.std.specs.Prelude.{◌≡◌, ◌++◌, [], ◌∷◌, length, OnOk, OnErr};

use crate::places::Places;
use htn_base::{Memory, Name};
use std::alloc::Global;
use std::marker::Model;

/// A declared name and how many parameters it has.
#[derive(Clone, Copy)]
pub struct Head {
    pub name: Name,
    pub arity: u32,
}

/// What a name stands for: the place of its first declaration, and how many parameters are declared there.
#[derive(Clone, Copy)]
pub struct Declared {
    pub place: u32,
    pub arity: u32,
}

/// Names with parameters, in the order in which they were declared. Contracts see them as a list.
pub struct Heads {
    places: Places,
    heads: Vec<Head>,
}

impl Drop for Heads {
    fn drop(self) {
        let Heads {
            places: _,
            heads: _,
        } = self;
    }
}

impl Model for Heads {
    ghost use Rattle.std.specs.Prelude.{◌≡◌, List};
    ghost use Rattle.name_binding.specs.declared.heads.Head.{Head as OneHead};
    ghost use Rattle.name_binding.specs.Heads.{head_numbers};

    ghost Value = { List OneHead };

    ghost view = { λ inside. inside.heads.items };

    ghost invariant = { λ inside. inside.places ≡ head_numbers inside.heads.items };
}

impl Heads {
    ghost use Rattle.name_binding.specs.Heads.{declared};

    /// No names. They take no memory yet.
    pub fn new(alloc: Global) -> Heads
        ensures none { result ≡ [] }
    {
        Heads {
            places: Places::new(alloc),
            heads: Vec::new(alloc),
        }
    }

    /// The number of declarations.
    pub fn len(&self) -> usize
        ensures length { result ≡ length self.now }
    {
        self.heads.len()
    }

    /// What the name stands for, by its first declaration.
    pub fn get(&self, name: Name) -> Option<Declared>
        ensures declared { result ≡ declared name.number self.now }
    {
        let place = self.places.get(name)?;
        let arity = self.heads[place as usize].arity;
        Some(Declared { place, arity })
    }

    /// Declares a name behind the others. After `Memory` they are as they were.
    pub fn declare(&mut self, head: Head) -> Result<(), Memory>
        ensures declared { OnOk result (self.new ≡ self.old ++ head ∷ []) }
        ensures unchanged { OnErr result (self.new ≡ self.old) }
    {
        self.heads.push(head)?;
        let declared = self.places.declare(head.name);
        if declared.is_err() {
            self.heads.pop();
        }
        declared
    }
}
