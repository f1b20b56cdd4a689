// Texts that spell a value have no fault.
ghost use Rattle.text_values.specs.Exactly.{SpelledHaveNoFault};

use crate::form_spellings::spelled_texts_are_faultless;

/// Two texts have no fault of any phase, and none can be told of them, where they spell a sound value whose networks have no cycle,
/// with at most 1,000 types beside object, and at most 200 lists are open at a time in them.
pub fn spelled_texts_have_no_fault()
    ensures { SpelledHaveNoFault }
{
    spelled_texts_are_faultless();
}
