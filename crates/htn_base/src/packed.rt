ghost use Rattle.std.specs.Prelude.{◌≡◌, [], ◌∷◌, ◌++◌, cond, length, slice_get, take, IfOk, OnOk, OnErr};
ghost use Rattle.htn_base.specs.Packed.{numbers_of};

use crate::list::push_item;
use crate::memory::Memory;
use std::alloc::Global;
use std::marker::Model;

// Numbers of one byte, two or four.
enum Numbers {
    Bytes(Vec<u8>),
    Halves(Vec<u16>),
    Words(Vec<u32>),
}

impl Drop for Numbers {
    fn drop(self) {
        match self {
            Numbers::Bytes(_) => {}
            Numbers::Halves(_) => {}
            Numbers::Words(_) => {}
        }
    }
}

/// Numbers in order, each in one byte, two or four: as few as the greatest of them took. Contracts see the list of the
/// numbers.
pub struct PackedNumbers {
    alloc: Global,
    numbers: Numbers,
}

impl Drop for PackedNumbers {
    fn drop(self) {
        let PackedNumbers {
            alloc: _,
            numbers: _,
        } = self;
    }
}

impl Model for PackedNumbers {
    ghost use Rattle.std.specs.Prelude.{ℕ, List};
    ghost use Rattle.htn_base.specs.Packed.{numbers_of};

    ghost Value = { List ℕ };

    ghost view = { λ packed. numbers_of packed.numbers };
}

impl PackedNumbers {
    /// No numbers. They take no memory yet.
    pub fn new(alloc: Global) -> PackedNumbers
        ensures none { result ≡ [] }
    {
        PackedNumbers {
            alloc,
            numbers: Numbers::Bytes(Vec::new(alloc)),
        }
    }

    /// No numbers, with room for so many of a byte each. Where greater ones come, as many have room.
    pub fn with_room(alloc: Global, count: usize) -> Result<PackedNumbers, Memory>
        ensures none { IfOk result (λ packed. packed ≡ []) }
    {
        let bytes = Vec::with_capacity(alloc, count)?;
        Ok(PackedNumbers {
            alloc,
            numbers: Numbers::Bytes(bytes),
        })
    }

    /// The number of numbers.
    #[inline]
    pub fn len(&self) -> usize
        ensures length { result ≡ length self.now }
    {
        match &self.numbers {
            Numbers::Bytes(bytes) => bytes.len(),
            Numbers::Halves(halves) => halves.len(),
            Numbers::Words(words) => words.len(),
        }
    }

    /// The number at place `i` from 0, or `None` past the end.
    #[inline]
    pub fn get(&self, i: usize) -> Option<u32>
        ensures number { result ≡ slice_get self.now i }
    {
        if i >= self.len() {
            return None;
        }
        let number = match &self.numbers {
            Numbers::Bytes(bytes) => u32::from(bytes[i]),
            Numbers::Halves(halves) => u32::from(halves[i]),
            Numbers::Words(words) => words[i],
        };
        Some(number)
    }

    /// Puts a number at the end. The others are copied only where it takes more bytes than each of them. After `Memory` the
    /// numbers are as they were.
    #[inline]
    pub fn push(&mut self, n: u32) -> Result<(), Memory>
        ensures pushed { OnOk result (self.new ≡ self.old ++ n ∷ []) }
        ensures unchanged { OnErr result (self.new ≡ self.old) }
    {
        match &mut self.numbers {
            Numbers::Bytes(bytes) => {
                if let Ok(byte) = u8::try_from(n) {
                    return push_item(bytes, byte);
                }
            }
            Numbers::Halves(halves) => {
                if let Ok(half) = u16::try_from(n) {
                    return push_item(halves, half);
                }
            }
            Numbers::Words(words) => return push_item(words, n),
        }
        self.numbers = self.widened(n)?;
        Ok(())
    }

    // These numbers and one more, in two bytes each if that is more than now and enough, and else in four, with room for
    // as many as there was room for.
    #[inline(never)]
    fn widened(&self, n: u32) -> Result<Numbers, Memory>
        ensures pushed { IfOk result (λ wide. numbers_of wide ≡ self.now ++ n ∷ []) }
    {
        if let (Numbers::Bytes(bytes), Ok(half)) = (&self.numbers, u16::try_from(n)) {
            return Ok(Numbers::Halves(halves_with(self.alloc, bytes, half)?));
        }
        let room = match &self.numbers {
            Numbers::Bytes(bytes) => bytes.capacity(),
            Numbers::Halves(halves) => halves.capacity(),
            Numbers::Words(words) => words.capacity(),
        };
        let mut words = Vec::with_capacity(self.alloc, room)?;
        for i in 0..self.len() {
            if let Some(number) = self.get(i) {
                words.push(number)?;
            }
        }
        words.push(n)?;
        Ok(Numbers::Words(words))
    }

    /// Puts all these numbers at the end. After `Memory` the numbers are as they were.
    #[inline]
    pub fn extend(&mut self, numbers: &[u32]) -> Result<(), Memory>
        ensures put { OnOk result (self.new ≡ self.old ++ numbers.now) }
        ensures unchanged { OnErr result (self.new ≡ self.old) }
    {
        if let Numbers::Bytes(bytes) = &mut self.numbers {
            if put_few(bytes, numbers)? {
                return Ok(());
            }
        }
        let before = self.len();
        for n in numbers {
            if let Err(memory) = self.push(*n) {
                self.truncate(before);
                return Err(memory);
            }
        }
        Ok(())
    }

    // Forgets all numbers but the first ones, `len` of them or all.
    pub(crate) fn truncate(&mut self, len: usize)
        ensures numbers { self.new ≡ take len self.old }
    {
        match &mut self.numbers {
            Numbers::Bytes(bytes) => bytes.truncate(len),
            Numbers::Halves(halves) => halves.truncate(len),
            Numbers::Words(words) => words.truncate(len),
        }
    }
}

// Puts the numbers at the end all at once, if they are few and each is a byte. After `Memory` the bytes are as they were.
fn put_few(bytes: &mut Vec<u8>, numbers: &[u32]) -> Result<bool, Memory>
    ensures put { IfOk result (λ put. bytes.new.items ≡ bytes.old.items ++ cond put numbers.now []) }
    ensures unchanged { OnErr result (bytes.new.items ≡ bytes.old.items) }
{
    let mut few = [0_u8; 16];
    if numbers.len() > few.len() {
        return Ok(false);
    }
    for (i, n) in numbers.iter().enumerate() {
        match u8::try_from(*n) {
            Ok(byte) => few[i] = byte,
            Err(_) => return Ok(false),
        }
    }
    bytes.extend_from_slice(&few[..numbers.len()])?;
    Ok(true)
}

// The bytes and one more number in two bytes each, with room for as many as there was room for.
fn halves_with(alloc: Global, bytes: &Vec<u8>, n: u16) -> Result<Vec<u16>, Memory>
    ensures { IfOk result (λ halves. halves.items ≡ bytes.now.items ++ n ∷ []) }
{
    let mut halves = Vec::with_capacity(alloc, bytes.capacity())?;
    for byte in bytes {
        halves.push(u16::from(*byte))?;
    }
    halves.push(n)?;
    Ok(halves)
}

/// Some of the numbers of a list, from a place up to another. Contracts see the list of these.
#[derive(Drop)]
pub struct PackedPart<'a> {
    pub(crate) numbers: &'a PackedNumbers,
    pub(crate) start: u32,
    pub(crate) end: u32,
}

impl<'a> Model for PackedPart<'a> {
    ghost use Rattle.std.specs.Prelude.{ℕ, List, ◌≤◌, length, slice_range};

    ghost Value = { List ℕ };

    ghost view = { λ part. slice_range part.numbers.now part.start part.end };

    ghost invariant = { λ part. (part.start ≤ part.end) × (part.end ≤ length part.numbers.now) };
}

impl<'a> PackedPart<'a> {
    /// The number of numbers.
    #[inline]
    pub fn len(&self) -> usize
        ensures length { result ≡ length self.now }
    {
        (self.end - self.start) as usize
    }

    /// The number at place `j` from 0, or `None` past the end.
    #[inline]
    pub fn get(&self, j: usize) -> Option<u32>
        ensures number { result ≡ slice_get self.now j }
    {
        let (start, end) = (self.start as usize, self.end as usize);
        if j < end - start {
            self.numbers.get(start + j)
        } else {
            None
        }
    }

    /// Puts the numbers in the place of what `into` had. After `Memory` it has the first of them, as many as had room.
    #[inline]
    pub fn copy_into(&self, into: &mut Vec<u32>) -> Result<(), Memory>
        ensures copied { OnOk result (into.new.items ≡ self.now) }
        ensures first { OnErr result (into.new.items ≡ take (length into.new.items) self.now) }
    {
        into.clear();
        for j in 0..self.len() {
            if let Some(number) = self.get(j) {
                into.push(number)?;
            }
        }
        Ok(())
    }
}
