// The order in which texts first name what was read of them.
ghost use Rattle.text_values.specs.form_spellings.SeenInOrder.{AllAreSeen};
ghost use Rattle.text_values.specs.form_spellings.HddlInOrder.{BoundHddlIsOfTexts};
ghost use Rattle.text_values.specs.form_spellings.PddlInOrder.{BoundPddlIsOfTexts, PddlHasOneOrder};

/// Two texts first name types, pairs and unions in the order of the offsets of what was read of them: the types and the words of
/// their parents, and the unions of all typed lists, where a union that several variables share counts once. So what was read of
/// two texts, bound in this order, is their HDDL value or their PDDL value.
pub fn offsets_tell_what_is_first_seen()
    ensures seen { AllAreSeen }
    ensures bound { BoundHddlIsOfTexts }
    ensures pddl_bound { BoundPddlIsOfTexts }
{}

/// Two values of the same PDDL texts have the same types, pairs and unions under the same numbers.
pub fn pddl_values_have_one_order()
    ensures { PddlHasOneOrder }
{}
