// Laws of the types of a domain that go over from the numbers of names to their words.
ghost use Rattle.text_values.specs.form_spellings.binding_laws.TypeWords.{OfAllTypes, HasTooManyTypes, HasTypes};
ghost use Rattle.text_values.specs.form_spellings.binding_laws.TypeWords.{HasTypesInOrder};
ghost use Rattle.text_values.specs.form_spellings.binding_laws.BoundTypes.{HasBoundTypes};
ghost use Rattle.text_values.specs.form_spellings.binding_laws.TypeCycles.{HasSectionFaults, HasTypeCycle};

/// The types in the order of the text are those that the domain has, each once: object, and the others as the text first names
/// them. The first word of a type that is one too many is that of the sentence on it, and so is the child of the first pair that closes
/// a cycle; other faults the section of types has none.
pub fn domain_types_are_said()
    ensures types { OfAllTypes HasTypes }
    ensures order { OfAllTypes HasTypesInOrder }
    ensures too_many { OfAllTypes HasTooManyTypes }
    ensures cycle { OfAllTypes HasTypeCycle }
    ensures all { OfAllTypes HasSectionFaults }
{}

/// Where the types have no cycle, they and the pairs of types and parents are bound to what the section of types says.
pub fn domain_types_are_bound()
    ensures bound { OfAllTypes HasBoundTypes }
{}
