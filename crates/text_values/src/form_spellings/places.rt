// The offsets of what was read.
ghost use Rattle.gd_reader.specs.declared.typed_lists.ListKind.{ListKind};
ghost use Rattle.gd_reader.specs.Effects.{effect_read};
ghost use Rattle.gd_reader.specs.Formulas.{formula_read};
ghost use Rattle.gd_reader.specs.TypedLists.{listed};
ghost use Rattle.hddl_reader.specs.declared.sections.Language.{Language};
ghost use Rattle.hddl_reader.specs.Definitions.{IsDomainRead, IsProblemRead};
ghost use Rattle.text_values.specs.form_spellings.Places.{AreParamsAt, IsFormulaAt, IsEffectAt, IsDomainAt, IsProblemAt};
ghost use Rattle.text_values.specs.form_spellings.ReadOf.{OfEachText, OfEachWhole};

/// Each offset of what was read of a text is that of the token that writes the name; that of a subtask and of an ordering is its
/// opening parenthesis.
pub fn places_are_those_of_tokens()
    ensures formulas { OfEachText formula_read IsFormulaAt }
    ensures effects { OfEachText effect_read IsEffectAt }
    ensures lists { (kind : ListKind) → OfEachText (listed kind) (AreParamsAt kind) }
    ensures domains { (l : Language) → OfEachWhole (IsDomainRead l) IsDomainAt }
    ensures problems { (l : Language) → OfEachWhole (IsProblemRead l) IsProblemAt }
{}
