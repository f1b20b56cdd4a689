ghost use Rattle.std.specs.Prelude.{◌≡◌, true, false, OnOk, OnErr};
ghost use Rattle.text_forms.specs.sheets.Sheets.{EndsAs, IsFresh};

use htn_base::{Memory, Text};

/// What stands on a text once all was put.
#[derive(Clone, Copy)]
pub enum Ended {
    /// The text has all bytes.
    Whole,
    /// There are so many bytes, which are more than the text may take; past 2^64 - 1 they count as 2^64 - 1. The text has
    /// only the first ones.
    TooLong(u64),
}

/// A text to which bytes are appended, and the number of all bytes that were put. The text takes at most so many as its
/// limit says, and nothing more once memory was wanting.
#[derive(Drop)]
pub struct Sheet<'a> {
    into: &'a mut Text,
    limit: u64,
    count: u64,
    whole: bool,
    wanting: bool,
}

impl<'a> Sheet<'a> {
    /// A sheet on which nothing was put, over a text that takes at most so many bytes.
    pub fn new(into: &'a mut Text, limit: u64) -> Sheet<'a>
        ensures same_text { result.into.ghost_name ≡ into.entry.ghost_name }
        ensures fresh { IsFresh into.old limit result }
    {
        Sheet {
            into,
            limit,
            count: 0,
            whole: true,
            wanting: false,
        }
    }
}

impl Sheet<'_> {
    ghost use Rattle.text_forms.specs.sheets.Sheets.{Counts, Wrote};

    /// Puts the bytes: counts them, and appends them where the text has all before them and has room.
    pub fn put(&mut self, bytes: &[u8])
        ensures wrote { Wrote bytes.now self.old self.new }
    {
        self.count = self.count.saturating_add(bytes.len() as u64);
        if !self.whole {
            return;
        }
        if self.count > self.limit {
            self.whole = false;
        } else if self.into.push_all(bytes).is_err() {
            self.whole = false;
            self.wanting = true;
        }
    }

    /// Whether the text has all that was put. If not, it takes nothing more: what is put is only counted.
    pub fn is_whole(&self) -> bool
        ensures whole { result ≡ self.now.whole }
    {
        self.whole
    }

    /// How many bytes were put; past 2^64 - 1 they count as 2^64 - 1.
    pub fn counted(&self) -> u64
        ensures counted { result ≡ self.now.count }
    {
        self.count
    }

    /// Counts so many bytes as put on a sheet that takes nothing more.
    pub fn skip(&mut self, bytes: u64)
        requires over { self.now.whole ≡ false }
        ensures counted { Counts bytes self.old self.new }
    {
        self.count = self.count.saturating_add(bytes);
    }

    /// Whether the text has all that was put. Where the limit is 2^64 - 1, only memory may have been wanting.
    pub fn complete(&self) -> Result<(), Memory>
        ensures whole { OnOk result (self.now.whole ≡ true) }
        ensures wanting { OnErr result (self.now.whole ≡ false) }
    {
        if self.whole { Ok(()) } else { Err(Memory) }
    }

    /// What stands on the text, or want of memory.
    pub fn answer(&self) -> Result<Ended, Memory>
        ensures ended { EndsAs self.now result }
    {
        if self.whole {
            Ok(Ended::Whole)
        } else if self.wanting {
            Err(Memory)
        } else {
            Ok(Ended::TooLong(self.count))
        }
    }
}
