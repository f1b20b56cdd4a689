// Laws of hierarchical plans as texts, each the contract of a function that does nothing.
ghost use Rattle.hplan_text.specs.Printable.{PrintableHPlansAreReadBack, SpelledHPlansArePrintable, ReadHPlansAreSound};
ghost use Rattle.hplan_text.specs.Reading.{SpellsOneHPlan};

/// A text spells one hierarchical plan at most.
pub fn a_text_spells_one_hplan(text: &[u8])
    ensures { SpellsOneHPlan text.now }
{}

/// The text of a plan has no fault and spells this plan, where its words are folded, of bytes 33 to 126 and not the arrow, and
/// its ids are below 2^64, each of one task, which the root reaches, and listed at most once. All this is so of each plan that
/// is read of a text.
pub fn printed_plans_are_read_back()
    ensures back { PrintableHPlansAreReadBack }
    ensures printable { SpelledHPlansArePrintable }
    ensures sound { ReadHPlansAreSound }
{}
