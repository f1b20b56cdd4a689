ghost use Rattle.name_binding.specs.Places.{cell as cell_of};
ghost use Rattle.std.specs.Prelude.{◌≡◌, ◌<◌, ◌++◌, [], ◌∷◌, length, OnOk, OnErr};

use htn_base::{Memory, Name, number};
use std::alloc::Global;
use std::marker::Model;

/// Names in the order in which they were declared, and of each the place of its first declaration. Contracts see the numbers
/// of the names.
pub struct Places {
    cells: Vec<Option<u32>>,
    numbers: Vec<u32>,
}

impl Drop for Places {
    fn drop(self) {
        let Places {
            cells: _,
            numbers: _,
        } = self;
    }
}

impl Model for Places {
    ghost use Rattle.std.specs.Prelude.{ℕ, List};
    ghost use Rattle.name_binding.specs.Places.{AreFirst};

    ghost Value = { List ℕ };

    ghost view = { λ places. places.numbers.items };

    ghost invariant = { λ places. AreFirst places.cells.items places.numbers.items };
}

impl Places {
    ghost use Rattle.name_binding.specs.Places.{first_place};

    /// No names. They take no memory yet.
    pub fn new(alloc: Global) -> Places
        ensures none { result ≡ [] }
    {
        Places {
            cells: Vec::new(alloc),
            numbers: Vec::new(alloc),
        }
    }

    /// The number of declarations.
    pub fn len(&self) -> usize
        ensures length { result ≡ length self.now }
    {
        self.numbers.len()
    }

    /// The numbers of the names, in the order in which they were declared.
    pub fn numbers(&self) -> &[u32]
        ensures same { result.now ≡ self.now }
    {
        self.numbers.as_slice()
    }

    /// The place of the name's first declaration.
    pub fn get(&self, name: Name) -> Option<u32>
        ensures place { result ≡ first_place name.number self.now }
    {
        match self.cells.get(name.number as usize) {
            Some(cell) => *cell,
            None => None,
        }
    }

    /// Declares a name behind the others. After `Memory` they are as they were.
    pub fn declare(&mut self, name: Name) -> Result<(), Memory>
        ensures declared { OnOk result (self.new ≡ self.old ++ name.number ∷ []) }
        ensures unchanged { OnErr result (self.new ≡ self.old) }
    {
        let place = number(self.numbers.len())?;
        let cell = name.number as usize;
        make_room(&mut self.cells, cell)?;
        self.numbers.push(name.number)?;
        if self.cells[cell].is_none() {
            self.cells[cell] = Some(place);
        }
        Ok(())
    }

    /// Takes all declarations back. It costs in proportion to their number, however great the numbers of the names are.
    pub fn clear(&mut self)
        ensures none { self.new ≡ [] }
    {
        while let Some(number) = self.numbers.pop() {
            self.cells[number as usize] = None;
        }
    }
}

/// Makes room for a cell of this number. The new ones are empty, also where memory ran out in between.
pub(crate) fn make_room(cells: &mut Vec<Option<u32>>, cell: usize) -> Result<(), Memory>
    ensures room { OnOk result (cell < length cells.new.items) }
    ensures same { (n : _) → cell_of cells.new.items n ≡ cell_of cells.old.items n }
{
    while cells.len() <= cell {
        cells.push(None)?;
    }
    Ok(())
}
