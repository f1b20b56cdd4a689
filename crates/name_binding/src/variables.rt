ghost use Rattle.std.specs.Prelude.{◌≡◌, ◌++◌, ◌-◌, [], ◌∷◌, take, length, OnOk, OnErr};

use crate::places::make_room;
use gd_reader::RawParam;
use htn_base::{Memory, Name, number};
use std::alloc::Global;
use std::marker::Model;

/// The number of a variable's name, and the place of the variable of this name that it hides.
#[derive(Clone, Copy)]
struct Entered {
    number: u32,
    hidden: Option<u32>,
}

/// The variables in force, from outside in. Contracts see the numbers of their names.
pub struct Variables {
    cells: Vec<Option<u32>>,
    entered: Vec<Entered>,
}

impl Drop for Variables {
    fn drop(self) {
        let Variables {
            cells: _,
            entered: _,
        } = self;
    }
}

impl Model for Variables {
    ghost use Rattle.std.specs.Prelude.{ℕ, List};
    ghost use Rattle.name_binding.specs.Entered.{numbers_of, AreInForce};

    ghost Value = { List ℕ };

    ghost view = { λ variables. numbers_of variables.entered.items };

    ghost invariant = { λ variables. AreInForce variables.cells.items variables.entered.items };
}

impl Variables {
    ghost use Rattle.name_binding.specs.Places.{last_place};
    ghost use Rattle.name_binding.specs.Entered.{variables_of};

    /// None in force. They take no memory yet.
    pub fn new(alloc: Global) -> Variables
        ensures none { result ≡ [] }
    {
        Variables {
            cells: Vec::new(alloc),
            entered: Vec::new(alloc),
        }
    }

    /// How many are in force.
    pub fn len(&self) -> usize
        ensures length { result ≡ length self.now }
    {
        self.entered.len()
    }

    /// The place of the innermost variable of this name.
    pub fn get(&self, name: Name) -> Option<u32>
        ensures place { result ≡ last_place name.number self.now }
    {
        match self.cells.get(name.number as usize) {
            Some(cell) => *cell,
            None => None,
        }
    }

    /// Puts a variable in force within the others. After `Memory` they are as they were.
    pub fn enter(&mut self, name: Name) -> Result<(), Memory>
        ensures entered { OnOk result (self.new ≡ self.old ++ name.number ∷ []) }
        ensures unchanged { OnErr result (self.new ≡ self.old) }
    {
        let place = number(self.entered.len())?;
        let cell = name.number as usize;
        make_room(&mut self.cells, cell)?;
        self.entered.push(Entered {
            number: name.number,
            hidden: self.cells[cell],
        })?;
        self.cells[cell] = Some(place);
        Ok(())
    }

    /// Puts the variables of a list in force within the others. After `Memory` they are as they were.
    pub fn enter_all(&mut self, params: &[RawParam]) -> Result<(), Memory>
        ensures entered { OnOk result (self.new ≡ self.old ++ variables_of params.now) }
        ensures unchanged { OnErr result (self.new ≡ self.old) }
    {
        let outer = self.len();
        for param in params {
            if let Err(memory) = self.enter(param.name) {
                self.leave(outer);
                return Err(memory);
            }
        }
        Ok(())
    }

    /// Takes all but the outermost `count` out of force.
    pub fn leave(&mut self, count: usize)
        ensures left { self.new ≡ take count self.old }
    {
        while self.len() > count {
            self.leave_one();
        }
    }

    fn leave_one(&mut self)
        ensures left { self.new ≡ take (length self.old - 1) self.old }
    {
        if let Some(innermost) = self.entered.pop() {
            self.cells[innermost.number as usize] = innermost.hidden;
        }
    }
}
