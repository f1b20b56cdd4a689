// What was read stands in the order of its text.
ghost use Rattle.gd_reader.specs.Effects.{effect_read};
ghost use Rattle.gd_reader.specs.Formulas.{formula_read};
ghost use Rattle.hddl_reader.specs.declared.sections.Language.{Language};
ghost use Rattle.hddl_reader.specs.Definitions.{IsDomainRead, IsProblemRead};
ghost use Rattle.text_values.specs.form_spellings.InOrder.{DomainIsInOrder, IsProblemInOrder};
ghost use Rattle.text_values.specs.form_spellings.InOrder.{FormulaIsInOrder, EffectIsInOrder};
ghost use Rattle.text_values.specs.form_spellings.OneWord.{OneWordAPlace, OneNameAPlace};
ghost use Rattle.text_values.specs.form_spellings.ReadOf.{OfEachText, OfEachWhole};
ghost use Rattle.text_values.specs.form_spellings.TypeOrder.{TypesStandInOrder};

/// In each list of what was read the offsets rise, declared words are names or variables that may be declared, no list of
/// parameters declares a variable twice, no type of one word stands twice, and an object has one type at most. The words of a list
/// of types, sorted by their offsets, name the types in the order of the text.
pub fn what_is_read_is_in_order()
    ensures formulas { OfEachText formula_read (λ text. FormulaIsInOrder) }
    ensures effects { OfEachText effect_read (λ text. EffectIsInOrder) }
    ensures domains { (l : Language) → OfEachWhole (IsDomainRead l) (λ text. DomainIsInOrder) }
    ensures problems { (l : Language) → OfEachWhole (IsProblemRead l) (λ text. IsProblemInOrder) }
    ensures types { TypesStandInOrder }
{}

/// At one offset stands one word, and what is read of it is one name.
pub fn one_word_stands_at_one_offset()
    ensures words { OneWordAPlace }
    ensures names { OneNameAPlace }
{}
