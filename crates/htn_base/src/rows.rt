ghost use Rattle.std.specs.Prelude.{◌≡◌, [], ◌∷◌, ◌++◌, length, slice_get, IfOk, OnOk, OnErr};
ghost use Rattle.htn_base.specs.Packed.{row_of};

use crate::lengths::number;
use crate::memory::Memory;
use crate::packed::{PackedNumbers, PackedPart};
use std::alloc::Global;
use std::marker::Model;

/// A row: a head and further numbers. Contracts see the row.
#[derive(Drop)]
pub struct PackedRow<'a> {
    pub head: u32,
    pub rest: PackedPart<'a>,
}

impl<'a> Model for PackedRow<'a> {
    ghost use Rattle.htn_base.specs.Packed.{Row, row_of};

    ghost Value = { Row };

    ghost view = { λ row. row_of row.head row.rest };
}

// Rows in order. The numbers of all stand in one list, so that no row takes memory of its own.
#[derive(Drop)]
struct Rows {
    alloc: Global,
    heads: PackedNumbers,
    // where the numbers of each row end among those of all
    ends: PackedNumbers,
    rest: PackedNumbers,
}

impl Model for Rows {
    ghost use Rattle.std.specs.Prelude.{List};
    ghost use Rattle.htn_base.specs.Packed.{Row, parts_from, rows_of, AreRows};

    ghost Value = { List Row };

    ghost view = { λ rows. rows_of rows.heads (parts_from 0 rows.ends rows.rest) };

    ghost invariant = { λ rows. AreRows rows.heads rows.ends rows.rest };
}

impl Rows {
    // No rows. They take no memory yet.
    fn new(alloc: Global) -> Rows
        ensures none { result ≡ [] }
    {
        Rows {
            alloc,
            heads: PackedNumbers::new(alloc),
            ends: PackedNumbers::new(alloc),
            rest: PackedNumbers::new(alloc),
        }
    }

    // The number of rows.
    #[inline]
    fn len(&self) -> usize
        ensures length { result ≡ length self.now }
    {
        self.heads.len()
    }

    // The row at place `k` from 0, or `None` past the end.
    #[inline]
    fn get(&self, k: usize) -> Option<PackedRow<'_>>
        ensures row { result ≡ slice_get self.now k }
    {
        let head = self.heads.get(k)?;
        let start = match k.checked_sub(1) {
            Some(before) => self.ends.get(before)?,
            None => 0,
        };
        let end = self.ends.get(k)?;
        let rest = PackedPart {
            numbers: &self.rest,
            start,
            end,
        };
        Some(PackedRow { head, rest })
    }

    // Puts a row at the end. More than 4,294,967,295 further numbers in all want memory. After `Memory` the rows are as
    // they were.
    #[inline]
    fn push(&mut self, head: u32, rest: &[u32]) -> Result<(), Memory>
        ensures pushed { OnOk result (self.new ≡ self.old ++ row_of head rest.now ∷ []) }
        ensures unchanged { OnErr result (self.new ≡ self.old) }
    {
        put_row(&mut self.heads, &mut self.ends, &mut self.rest, head, rest)?;
        Ok(())
    }
}

/// Rows in order, each a head and further numbers. The numbers of all stand in one list, so that no row takes memory of
/// its own. Contracts see the list of the rows.
pub struct PackedRows {
    alloc: Global,
    // on the heap, so that what owns rows owns one thing
    rows: Option<Box<Rows>>,
}

impl Drop for PackedRows {
    fn drop(self) {
        let PackedRows { alloc: _, rows: _ } = self;
    }
}

impl Model for PackedRows {
    ghost use Rattle.std.specs.Prelude.{List};
    ghost use Rattle.htn_base.specs.Packed.{Row, rows_or_none};

    ghost Value = { List Row };

    ghost view = { λ packed. rows_or_none packed.rows };
}

impl PackedRows {
    /// No rows. They take no memory yet.
    pub fn new(alloc: Global) -> PackedRows
        ensures none { result ≡ [] }
    {
        PackedRows { alloc, rows: None }
    }

    /// No rows, with room for so many, and for so many further numbers of all together, of a byte each.
    pub fn with_room(alloc: Global, rows: usize, numbers: usize) -> Result<PackedRows, Memory>
        ensures none { IfOk result (λ rows. rows ≡ []) }
    {
        let rows = Rows {
            alloc,
            heads: PackedNumbers::with_room(alloc, rows)?,
            ends: PackedNumbers::with_room(alloc, rows)?,
            rest: PackedNumbers::with_room(alloc, numbers)?,
        };
        Ok(PackedRows {
            alloc,
            rows: Some(Box::new(alloc, rows)?),
        })
    }

    /// The number of rows.
    #[inline]
    pub fn len(&self) -> usize
        ensures length { result ≡ length self.now }
    {
        match &self.rows {
            None => 0,
            Some(rows) => rows.len(),
        }
    }

    /// The row at place `k` from 0, or `None` past the end.
    #[inline]
    pub fn get(&self, k: usize) -> Option<PackedRow<'_>>
        ensures row { result ≡ slice_get self.now k }
    {
        match &self.rows {
            None => None,
            Some(rows) => rows.get(k),
        }
    }

    /// Puts a row at the end. More than 4,294,967,295 further numbers in all want memory. After `Memory` the rows are as
    /// they were.
    #[inline]
    pub fn push(&mut self, head: u32, rest: &[u32]) -> Result<(), Memory>
        ensures pushed { OnOk result (self.new ≡ self.old ++ row_of head rest.now ∷ []) }
        ensures unchanged { OnErr result (self.new ≡ self.old) }
    {
        match &mut self.rows {
            Some(rows) => rows.push(head, rest),
            None => {
                let mut rows = Rows::new(self.alloc);
                rows.push(head, rest)?;
                self.rows = Some(Box::new(self.alloc, rows)?);
                Ok(())
            }
        }
    }
}

// Puts a row at the end of the lists of rows: the head, the numbers behind those of all, and where they end. After `Memory`
// the lists are as they were.
#[inline]
fn put_row(
    heads: &mut PackedNumbers,
    ends: &mut PackedNumbers,
    numbers: &mut PackedNumbers,
    head: u32,
    rest: &[u32],
) -> Result<(), Memory>
    ensures heads { OnOk result (heads.new ≡ heads.old ++ head ∷ []) }
    ensures ends { OnOk result (ends.new ≡ ends.old ++ length numbers.new ∷ []) }
    ensures numbers { OnOk result (numbers.new ≡ numbers.old ++ rest.now) }
    ensures heads_unchanged { OnErr result (heads.new ≡ heads.old) }
    ensures ends_unchanged { OnErr result (ends.new ≡ ends.old) }
    ensures numbers_unchanged { OnErr result (numbers.new ≡ numbers.old) }
{
    let before = numbers.len();
    numbers.extend(rest)?;
    match put_end(heads, ends, head, numbers.len()) {
        Ok(()) => Ok(()),
        Err(memory) => {
            numbers.truncate(before);
            Err(memory)
        }
    }
}

// Puts a head, and where its row ends, behind the others. After `Memory` the lists are as they were.
#[inline]
fn put_end(
    heads: &mut PackedNumbers,
    ends: &mut PackedNumbers,
    head: u32,
    end: usize,
) -> Result<(), Memory>
    ensures heads { OnOk result (heads.new ≡ heads.old ++ head ∷ []) }
    ensures ends { OnOk result (ends.new ≡ ends.old ++ end ∷ []) }
    ensures heads_unchanged { OnErr result (heads.new ≡ heads.old) }
    ensures ends_unchanged { OnErr result (ends.new ≡ ends.old) }
{
    let before = ends.len();
    ends.push(number(end)?)?;
    match heads.push(head) {
        Ok(()) => Ok(()),
        Err(memory) => {
            ends.truncate(before);
            Err(memory)
        }
    }
}
