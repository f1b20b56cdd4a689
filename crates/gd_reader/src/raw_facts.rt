ghost use Rattle.std.specs.Prelude.{◌≡◌, ◌<◌, ◌+◌, ◌*◌, ◌%◌, ◌^◌, ◌++◌, ◌∷◌, [], length, drop, slice_get, IfOk, OnOk};
ghost use Rattle.std.specs.Option.{option_map};
ghost use Rattle.htn_base.specs.Packed.{row_of};
ghost use Rattle.gd_reader.specs.RawRows.{term_coded, terms_coded, atom_coded};

use crate::term::RawTerm;
use htn_base::{Memory, Name, PackedRow, PackedRows};
use std::alloc::Global;
use std::marker::Model;

// The first number that is too great for a name of a list, so that twice a name's number and one more is a number of
// 32 bits.
const TOO_GREAT: u32 = 1 << 31;

/// Atoms in order, as rows of numbers that take few bytes, so that no atom takes memory of its own. Contracts see the
/// list of the atoms. After want of memory it may be any list.
pub struct RawFacts {
    rows: PackedRows,
    // the numbers of the atom that was put last, kept for their room
    code: Vec<u32>,
}

impl Drop for RawFacts {
    fn drop(self) {
        let RawFacts { rows: _, code: _ } = self;
    }
}

impl Model for RawFacts {
    ghost use Rattle.std.specs.Prelude.{List};
    ghost use Rattle.gd_reader.specs.declared.term.RawAtom.{RawAtom};

    ghost Value = { List RawAtom };

    ghost use Rattle.gd_reader.specs.RawRows.{atoms_coded};

    ghost view = { λ facts. atoms_coded facts.rows };
}

impl RawFacts {
    /// No atoms. They take no memory yet.
    pub fn new(alloc: Global) -> RawFacts
        ensures none { result ≡ [] }
    {
        RawFacts {
            rows: PackedRows::new(alloc),
            code: Vec::new(alloc),
        }
    }

    /// No atoms, with room for so many, and for so many terms of all together.
    pub fn with_room(alloc: Global, facts: usize, terms: usize) -> Result<RawFacts, Memory>
        ensures none { IfOk result (λ facts. facts ≡ []) }
    {
        let numbers = terms.saturating_mul(2).saturating_add(facts);
        let rows = PackedRows::with_room(alloc, facts, numbers)?;
        Ok(RawFacts {
            rows,
            code: Vec::new(alloc),
        })
    }

    /// The number of atoms.
    pub fn len(&self) -> usize
        ensures length { result ≡ length self.now }
    {
        self.rows.len()
    }

    /// The atom at place `i` from 0: its name, and its terms in the place of what `args` had. `None` past the end.
    pub fn read(&self, i: usize, args: &mut Vec<RawTerm>) -> Result<Option<RawTerm>, Memory>
        ensures fact { IfOk result
            (λ head. option_map (λ head. record { head = head; args = args.new.items }) head ≡ slice_get self.now i) }
    {
        args.clear();
        let Some(row) = self.rows.get(i) else {
            return Ok(None);
        };
        for j in 0..row.rest.len() / 2 {
            if let Some(term) = term_of_row(&row, j) {
                args.push(term)?;
            }
        }
        let code = row.rest.get(0).unwrap_or(0);
        Ok(Some(decoded(row.head, code)))
    }

    /// Puts an atom at the end. More than 4,294,967,295 numbers for the names and terms of all, one for a name and two for
    /// a term, want memory, and so does a name of number 2,147,483,648 or more.
    pub fn push(&mut self, head: RawTerm, args: &[RawTerm]) -> Result<(), Memory>
        ensures pushed { OnOk result
            (self.new ≡ self.old ++ record { head = head; args = args.now } ∷ []) }
    {
        encode(head, args, &mut self.code)?;
        self.rows.push(head.at, self.code.as_slice())
    }
}

// Puts the numbers of an atom in the place of what `into` had.
fn encode(head: RawTerm, args: &[RawTerm], into: &mut Vec<u32>) -> Result<(), Memory>
    ensures { OnOk result
        (atom_coded (row_of head.at into.new.items) ≡ record { head = head; args = args.now }) }
{
    into.clear();
    into.push(code_of(head)?)?;
    for term in args {
        into.push(away(head.at, term.at))?;
        into.push(code_of(*term)?)?;
    }
    Ok(())
}

// How far behind an offset another one is, so that the sum of the two is this one again. It wraps where it is before.
#[inline]
fn away(from: u32, at: u32) -> u32
    ensures { (from + result) % 2 ^ 32 ≡ at }
{
    at.wrapping_sub(from)
}

// Twice the number of the name, and one more for a variable.
#[inline]
fn code_of(term: RawTerm) -> Result<u32, Memory>
    ensures { IfOk result (λ code. term_coded term.at code ≡ term) }
{
    if term.name.number >= TOO_GREAT {
        return Err(Memory);
    }
    Ok(term.name.number * 2 + u32::from(term.variable))
}

// The term at this offset whose code this is.
#[inline]
fn decoded(at: u32, code: u32) -> RawTerm
    ensures { result ≡ term_coded at code }
{
    RawTerm {
        name: Name { number: code / 2 },
        variable: code % 2 == 1,
        at,
    }
}

// Term `j` of a row, from 0, or `None` past the last.
#[inline]
fn term_of_row(row: &PackedRow<'_>, j: usize) -> Option<RawTerm>
    requires { j * 2 + 2 < 2 ^ 64 }
    ensures { result ≡ slice_get (terms_coded row.now.head (drop 1 row.now.rest)) j }
{
    let away = row.rest.get(j * 2 + 1)?;
    let code = row.rest.get(j * 2 + 2)?;
    Some(decoded(row.head.wrapping_add(away), code))
}
