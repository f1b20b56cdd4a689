ghost use Rattle.std.specs.Prelude.{◌≡◌, [], ◌∷◌, ◌++◌, length, nat_eq, slice_get, IfOk, OnOk, OnErr};
ghost use Rattle.std.specs.Option.{option_copied};
ghost use Rattle.std.specs.Cmp.{partial_equiv_from_equiv};
ghost use Rattle.std.specs.Cmp.Lexicographic.{pointwise, nat_list_eq_equiv};

use crate::list::push_item;
use crate::memory::Memory;
use std::alloc::Global;
use std::marker::Model;

/// A growing text, which contracts see as the list of its bytes.
pub struct Text {
    bytes: Vec<u8>,
}

impl Drop for Text {
    fn drop(self) {
        let Text { bytes: _ } = self;
    }
}

impl Model for Text {
    ghost use Rattle.std.specs.Prelude.{ℕ, List};

    ghost Value = { List ℕ };

    ghost view = { λ text. text.bytes.items };
}

impl Text {
    /// The empty text. It takes no memory yet.
    pub fn new(alloc: Global) -> Text
        ensures empty { result ≡ [] }
    {
        Text {
            bytes: Vec::new(alloc),
        }
    }

    /// A text of these bytes.
    pub fn from_slice(alloc: Global, bytes: &[u8]) -> Result<Text, Memory>
        ensures bytes { IfOk result (λ text. text ≡ bytes.now) }
    {
        let bytes = Vec::from_slice(alloc, bytes)?;
        Ok(Text { bytes })
    }

    /// The number of bytes.
    pub fn len(&self) -> usize
        ensures length { result ≡ length self.now }
    {
        self.bytes.len()
    }

    /// The byte at offset `i` from 0, or `None` past the end.
    pub fn get(&self, i: usize) -> Option<&u8>
        ensures byte { option_copied result ≡ slice_get self.now i }
    {
        self.bytes.get(i)
    }

    /// All bytes in order.
    pub fn as_slice(&self) -> &[u8]
        ensures bytes { result.now ≡ self.now }
    {
        self.bytes.as_slice()
    }

    /// Puts a byte at the end. After `Memory` the text is as it was.
    pub fn push(&mut self, byte: u8) -> Result<(), Memory>
        ensures pushed { OnOk result (self.new ≡ self.old ++ byte ∷ []) }
        ensures unchanged { OnErr result (self.new ≡ self.old) }
    {
        push_item(&mut self.bytes, byte)
    }

    /// Puts all these bytes at the end. After `Memory` none was taken: the text is as it was.
    pub fn push_all(&mut self, bytes: &[u8]) -> Result<(), Memory>
        ensures pushed { OnOk result (self.new ≡ self.old ++ bytes.now) }
        ensures unchanged { OnErr result (self.new ≡ self.old) }
    {
        self.bytes.extend_from_slice(bytes)?;
        Ok(())
    }

    /// Makes room for this many further bytes at once, so that putting them at the end moves nothing. The text stays as
    /// it is, after `Memory` too.
    pub fn reserve(&mut self, additional: usize) -> Result<(), Memory>
        ensures same { self.new ≡ self.old }
    {
        self.bytes.reserve(additional)?;
        Ok(())
    }

    /// An equal text.
    pub fn copy(&self, alloc: Global) -> Result<Text, Memory>
        ensures equal { IfOk result (λ copy. copy ≡ self.now) }
    {
        Text::from_slice(alloc, self.bytes.as_slice())
    }
}

impl PartialEq for Text {
    ghost eq = { pointwise nat_eq };

    ghost laws = { partial_equiv_from_equiv nat_list_eq_equiv };

    fn eq(&self, other: &Self) -> bool {
        self.bytes == other.bytes
    }
}

impl Eq for Text {
    ghost laws = { nat_list_eq_equiv };
}
