// Laws of what is asked of the value of a whole domain and a whole problem.
ghost use Rattle.text_values.specs.form_spellings.binding_laws.PddlValues.{ReadPddlIsItsValue};
ghost use Rattle.text_values.specs.form_spellings.binding_laws.SoundValues.{HasFewUnions, IsOrderedBoth, IsSoundBoth};
ghost use Rattle.text_values.specs.form_spellings.binding_laws.SoundValues.{ReadValuesAreSound, TablesAreFew};
ghost use Rattle.text_values.specs.form_spellings.binding_laws.WholeValues.{OfAllBound};

use crate::form_spellings::{
    pddl_texts_have_no_networks, places_are_those_of_tokens, what_is_read_is_in_order,
};
use gd_reader::at_most_one_word_is_added_for_each_token;

/// The value that is bound of a domain and a problem that were read of two short texts is sound, and its networks have no cycle. It
/// has no more unions than the texts have bytes.
pub fn bound_values_are_sound()
    ensures ordered { OfAllBound IsOrderedBoth }
    ensures sound { OfAllBound IsSoundBoth }
    ensures unions { HasFewUnions }
{}

/// The value of two texts that were read and bound, and that spell it, is sound, and its networks have no cycle.
pub fn read_values_are_sound()
    ensures { ReadValuesAreSound }
{
    places_are_those_of_tokens();
    what_is_read_is_in_order();
}

/// What is read of two PDDL texts without a bad byte and bound, without the tasks, methods and network that it lacks, is their PDDL
/// value, sound and within its limits.
pub fn read_pddl_is_its_value()
    ensures { ReadPddlIsItsValue }
{
    places_are_those_of_tokens();
    what_is_read_is_in_order();
    pddl_texts_have_no_networks();
}

/// A table that began empty has fewer than 67,108,864 words when two short texts were read into it.
pub fn tables_of_texts_are_few()
    ensures { TablesAreFew }
{
    at_most_one_word_is_added_for_each_token();
}
