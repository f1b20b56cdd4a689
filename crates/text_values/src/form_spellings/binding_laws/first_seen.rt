// A law of the order in which a domain and a problem that were read are bound.
ghost use Rattle.text_values.specs.form_spellings.binding_laws.SeenBound.{IsInSeenOrder, IsOfTexts};
ghost use Rattle.text_values.specs.form_spellings.binding_laws.WholeValues.{OfAllBound};

/// The types, pairs and unions of a value that is bound are those that were read, by the offsets of their words. So the value that
/// is bound of what was read of two texts without a bad byte is the HDDL value of these texts.
pub fn what_is_bound_is_of_its_texts()
    ensures order { OfAllBound IsInSeenOrder }
    ensures texts { OfAllBound IsOfTexts }
{}
