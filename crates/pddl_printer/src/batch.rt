ghost use Rattle.std.specs.Prelude.{◌≡◌, []};
ghost use Rattle.pddl_printer.specs.Batches.{Added};
ghost use Rattle.text_forms.specs.sheets.Sheets.{Wrote};

use arrayvec::ArrayVec;
use text_forms::sheets::Sheet;

/// The most bytes that wait.
const MOST_BYTES: usize = 1024;

/// Bytes that wait to be put on a sheet together, since each put costs more than the copy of a few bytes.
pub struct Batch {
    bytes: ArrayVec<u8, MOST_BYTES>,
}

impl Drop for Batch {
    fn drop(self) {
        let Batch { bytes: _ } = self;
    }
}

impl Batch {
    /// One in which nothing waits.
    pub fn new() -> Batch
        ensures { result.bytes.items ≡ [] }
    {
        Batch {
            bytes: ArrayVec::new(),
        }
    }

    /// Adds the bytes to those that wait. Where there is no room, all are put.
    #[inline(always)]
    pub fn add(&mut self, bytes: &[u8], sheet: &mut Sheet<'_>)
        ensures { Added bytes.now self.old self.new sheet.old sheet.new }
    {
        if self.bytes.try_extend_from_slice(bytes).is_err() {
            self.put(sheet);
            sheet.put(bytes);
        }
    }

    /// Puts the bytes that wait. It is seldom wanted, and keeps out of the way of the rest.
    #[inline(never)]
    pub fn put(&mut self, sheet: &mut Sheet<'_>)
        ensures empty { self.new.bytes.items ≡ [] }
        ensures wrote { Wrote self.old.bytes.items sheet.old sheet.new }
    {
        sheet.put(self.bytes.as_slice());
        self.bytes.clear();
    }
}
