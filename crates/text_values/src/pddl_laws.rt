// PDDL texts that spell a value have no fault, so what is printed can be read.
ghost use Rattle.text_values.specs.PddlExactly.{SpelledPddlHasNoFault, PrintedTextsAreReadAgain};

use crate::form_spellings::spelled_texts_are_faultless;

/// Two PDDL texts have no fault of any phase, and none can be told of them, where they spell a sound value with at most 1,002 types
/// beside object, and at most 200 lists are open at a time in them.
pub fn spelled_pddl_has_no_fault()
    ensures { SpelledPddlHasNoFault }
{
    spelled_texts_are_faultless();
}

/// The two texts that are printed for a value have no fault, and each value that they spell is alike to it, where it is printable
/// and has at most 1,002 types beside object, and at most 200 lists are open at a time in them. So a reader of them answers a value
/// that is alike, if memory lasts and each text has at most 16,777,216 bytes.
pub fn printed_texts_are_read_again()
    ensures { PrintedTextsAreReadAgain }
{
    spelled_texts_are_faultless();
}
