// Texts that spell a value have no fault.
ghost use Rattle.text_values.specs.form_spellings.Depth.{DepthIsThatOfLists};
ghost use Rattle.text_values.specs.form_spellings.Faultless.{SpelledHddlIsFaultless, SpelledPddlIsFaultless};

use crate::form_spellings::bound::texts_spell_what_is_bound;
use crate::form_spellings::laws::spelled_definitions_are_whole;
use crate::form_spellings::names::names_stand_in_the_table;
use crate::form_spellings::places::places_are_those_of_tokens;

/// Two texts in which at most 200 lists are open at a time, and that spell a sound value, have no fault of tokens and are read as
/// a domain and a problem, whose names have no fault: of HDDL, where the networks have no cycle and at most 1,000 types stand
/// beside object, and of PDDL with at most 1,002. The types may stand in any order.
pub fn spelled_texts_are_faultless()
    ensures hddl { SpelledHddlIsFaultless }
    ensures pddl { SpelledPddlIsFaultless }
{
    spelled_definitions_are_whole();
    texts_spell_what_is_bound();
    names_stand_in_the_table();
    places_are_those_of_tokens();
}

/// In a text that says one list no list stands too deep exactly where at most 200 of its lists stand in one another.
pub fn depth_is_that_of_lists()
    ensures { DepthIsThatOfLists }
{}
