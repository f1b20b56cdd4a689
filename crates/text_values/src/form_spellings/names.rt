// The names of what was read.
ghost use Rattle.gd_reader.specs.declared.typed_lists.ListKind.{ListKind};
ghost use Rattle.gd_reader.specs.Effects.{effect_read};
ghost use Rattle.gd_reader.specs.Formulas.{formula_read};
ghost use Rattle.gd_reader.specs.TypedLists.{listed};
ghost use Rattle.hddl_reader.specs.declared.sections.Language.{Language};
ghost use Rattle.hddl_reader.specs.Definitions.{IsDomainRead, IsProblemRead};
ghost use Rattle.text_values.specs.form_spellings.InTable.{AreParamsIn, IsFormulaIn, IsEffectIn, IsDomainIn, IsProblemIn};
ghost use Rattle.text_values.specs.form_spellings.OfAllRead.{OfEachRead};
ghost use Rattle.text_values.specs.form_spellings.ReadOf.{OfEachWhole, KeepsWords};

/// Each name of what was read has its word in the table that reading leaves, and in each table that keeps its words; reading a
/// whole text keeps the words that the table had.
pub fn names_stand_in_the_table()
    ensures formulas { OfEachRead formula_read IsFormulaIn }
    ensures effects { OfEachRead effect_read IsEffectIn }
    ensures lists { (kind : ListKind) → OfEachRead (listed kind) AreParamsIn }
    ensures domains { (l : Language) → OfEachWhole (IsDomainRead l) (λ text. IsDomainIn) }
    ensures problems { (l : Language) → OfEachWhole (IsProblemRead l) (λ text. IsProblemIn) }
    ensures domains_keep { (l : Language) → KeepsWords (IsDomainRead l) }
    ensures problems_keep { (l : Language) → KeepsWords (IsProblemRead l) }
{}
