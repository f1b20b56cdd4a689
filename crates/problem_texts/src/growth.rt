ghost use Rattle.std.specs.Prelude.{ℕ, ◌≡◌, ◌<◌};
ghost use Rattle.text_forms.specs.sheets.Sheets.{capped};
ghost use Rattle.slot_encoding.specs.encoded_texts.Growth as growth;
ghost use Rattle.problem_texts.specs.FewSlots.{AreCapped};

/// The lengths of a text with one slot, with two and with ten. They tell its length with any number of slots, since it grows by a
/// step for each slot past the first, and by so many bytes more for each further digit of a slot's number.
#[derive(Clone, Copy)]
pub(crate) struct FewSlots {
    pub(crate) one: u64,
    pub(crate) two: u64,
    pub(crate) ten: u64,
}

impl FewSlots {
    /// The length with so many slots; past 2^64 - 1 it counts as 2^64 - 1.
    pub(crate) fn length_with(self, slots: u32) -> u64
        ensures { (one two ten all : ℕ) → growth.AreOnLine slots one two ten all
            → AreCapped one two ten self → 10 < slots → result ≡ capped all }
    {
        if self.ten == u64::MAX {
            return u64::MAX;
        }
        let step = self.two.saturating_sub(self.one);
        let more = self
            .ten
            .saturating_sub(self.one)
            .saturating_sub(step.saturating_mul(9));
        let steps = step.saturating_mul(u64::from(slots.saturating_sub(1)));
        // How many digits past the first the numbers of so many slots have: so many of them are no less than each power of ten.
        let end = u64::from(slots) + 1;
        let tens = end.saturating_sub(10) + end.saturating_sub(100) + end.saturating_sub(1_000);
        let thousands = end.saturating_sub(10_000)
            + end.saturating_sub(100_000)
            + end.saturating_sub(1_000_000);
        let millions = end.saturating_sub(10_000_000)
            + end.saturating_sub(100_000_000)
            + end.saturating_sub(1_000_000_000);
        let digits = more.saturating_mul(tens + thousands + millions);
        self.one.saturating_add(steps).saturating_add(digits)
    }
}
