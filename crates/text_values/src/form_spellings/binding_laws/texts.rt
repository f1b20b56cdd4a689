// Laws of a whole domain and a whole problem that go over from the numbers of names to their words.
ghost use Rattle.text_values.specs.form_spellings.binding_laws.WholeFaults.{IsLeastOfDomain, DomainHasNone, OfAllInOrder};
ghost use Rattle.text_values.specs.form_spellings.binding_laws.WholeFaults.{IsLeastOfProblem, BothHaveNone};
ghost use Rattle.text_values.specs.form_spellings.binding_laws.WholeValues.{IsBoundBoth, OfAllBound};

/// A domain is refused for its least fault, and a problem over a domain that is bound likewise, so that this is the least fault of
/// both. A domain that is bound has none, and where both are bound neither has one.
pub fn whole_texts_are_judged()
    ensures domains { OfAllInOrder IsLeastOfDomain }
    ensures bound_domains { OfAllInOrder DomainHasNone }
    ensures problems { OfAllInOrder IsLeastOfProblem }
    ensures both_bound { OfAllInOrder BothHaveNone }
{}

/// The value that is bound of a domain and a problem is what the two stand for.
pub fn whole_texts_are_bound()
    ensures bound { OfAllBound IsBoundBoth }
{}
