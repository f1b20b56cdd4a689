// Laws that go over from the numbers of names to their words.
ghost use Rattle.text_values.specs.form_spellings.binding_laws.Formulas.{HasAtomFaults, HasFormulaFaults, HasEffectFaults, IsAtomBound, IsFormulaBound, IsEffectBound, OfAllKnown};
ghost use Rattle.text_values.specs.form_spellings.binding_laws.Kinds.{HasKindFaults, IsKindBound, OfAllKinds};
ghost use Rattle.text_values.specs.form_spellings.binding_laws.Numbers.{HaveOnePlace};
ghost use Rattle.text_values.specs.form_spellings.binding_laws.Terms.{HasTermFaults, IsTermBound, OfAllTables};
ghost use Rattle.text_values.specs.form_spellings.binding_laws.Typed.{HasTypedFaults, AreParamsBound, AreObjectsBound};
ghost use Rattle.text_values.specs.form_spellings.binding_laws.Uses.{AreSaidOfDomains, AreSaidOfProblems};

/// In a table of different words the place of a number among others is that of its word among theirs.
pub fn numbers_are_words()
    ensures { HaveOnePlace }
{}

/// The faults of a term are the sentences on its word; a term without faults is bound to the innermost variable in force, or the
/// first object, that has its word.
pub fn terms_are_bound()
    ensures faults { OfAllTables HasTermFaults }
    ensures bound { OfAllTables IsTermBound }
{}

/// The faults of written types are the words that no type has. Types without faults are bound to the number of what is written,
/// where no type is written twice and two or more are a union that has a number.
pub fn types_are_bound()
    ensures faults { OfAllKinds HasKindFaults }
    ensures bound { OfAllKinds IsKindBound }
{}

/// The faults of a typed list are those of the types that it writes. Without faults its variables are bound to parameters of these
/// types, where those have numbers as above, and its names to objects, where at most one type is written for each.
pub fn lists_are_bound()
    ensures faults { OfAllKinds HasTypedFaults }
    ensures params { OfAllKinds AreParamsBound }
    ensures objects { OfAllKinds AreObjectsBound }
{}

/// The faults of the declarations and uses of a domain, and of a problem, are the sentences on it, for the codes 11 and 13 to 17.
pub fn uses_are_said()
    ensures domains { AreSaidOfDomains }
    ensures problems { AreSaidOfProblems }
{}

/// The faults of an atom are those of its uses; an atom without faults is bound to what it stands for.
pub fn atoms_are_bound()
    ensures faults { OfAllKnown HasAtomFaults }
    ensures bound { OfAllKnown IsAtomBound }
{}

/// The faults of a formula are those of its declarations and uses; a formula without faults, whose types have numbers, is bound to
/// what it stands for.
pub fn formulas_are_bound()
    ensures faults { OfAllKnown HasFormulaFaults }
    ensures bound { OfAllKnown IsFormulaBound }
{}

/// The faults of an effect are those of its declarations and uses; an effect without faults, whose types have numbers, is bound to
/// what it stands for.
pub fn effects_are_bound()
    ensures faults { OfAllKnown HasEffectFaults }
    ensures bound { OfAllKnown IsEffectBound }
{}
