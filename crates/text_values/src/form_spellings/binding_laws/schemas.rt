// Laws of the schemas of a domain and of the parts of a problem that go over from the numbers of names to their words.
ghost use Rattle.text_values.specs.form_spellings.binding_laws.Schemas.{HasHeadFaults, HasActionFaults, HasMethodFaults};
ghost use Rattle.text_values.specs.form_spellings.binding_laws.Schemas.{HasSchemaFaults, HasPartFaults, OfAllLookups};
ghost use Rattle.text_values.specs.form_spellings.binding_laws.SchemaValues.{HasBoundSchemas, HasBoundParts, OfAllWords};
ghost use Rattle.text_values.specs.form_spellings.binding_laws.SoundSchemas.{HasSoundSchemas, HasSoundParts};

/// The faults of predicates, tasks, actions and methods are those of their declarations and uses, and those of the ordering of
/// methods' networks; so are those of all that a domain declares but its types, and of a problem's parts.
pub fn schemas_are_said()
    ensures heads { OfAllLookups HasHeadFaults }
    ensures actions { OfAllLookups HasActionFaults }
    ensures methods { OfAllLookups HasMethodFaults }
    ensures domains { OfAllLookups HasSchemaFaults }
    ensures problems { OfAllLookups HasPartFaults }
{}

/// All that a domain declares but its types is bound to what it stands for where it has no fault, and so is what a problem says;
/// each type that is written has a number, and no two callables have one word.
pub fn schemas_are_bound()
    ensures domains { OfAllWords HasBoundSchemas }
    ensures problems { OfAllWords HasBoundParts }
{}

/// Without faults the numbers of predicates, tasks, actions, facts and the goal name what is declared, as is asked of a sound value:
/// variables and objects in force, as many terms as parameters, types that there are.
pub fn schemas_are_sound()
    ensures domains { OfAllWords HasSoundSchemas }
    ensures problems { OfAllWords HasSoundParts }
{}
