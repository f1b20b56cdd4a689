// What was read is what is spelled.
ghost use Rattle.gd_reader.specs.declared.typed_lists.ListKind.{ListKind};
ghost use Rattle.gd_reader.specs.Effects.{effect_read};
ghost use Rattle.gd_reader.specs.Formulas.{formula_read};
ghost use Rattle.gd_reader.specs.TypedLists.{listed};
ghost use Rattle.text_values.specs.form_spellings.OfAllRead.{OfAllRead};
ghost use Rattle.text_values.specs.form_spellings.SpellsBound.{SpellsFormula, SpellsEffect, SpellsList, BindsFormula, BindsEffect, BindsList};

/// What was read, once its names are bound to declared words, is spelled by the parts from which it was read.
pub fn what_is_read_is_spelled()
    ensures formulas { OfAllRead formula_read SpellsFormula }
    ensures effects { OfAllRead effect_read SpellsEffect }
    ensures lists { (kind : ListKind) → OfAllRead (listed kind) (SpellsList kind) }
{}

/// What the parts spell, over declared words, is a value to which what was read of them is bound.
pub fn what_is_spelled_is_read()
    ensures formulas { OfAllRead formula_read BindsFormula }
    ensures effects { OfAllRead effect_read BindsEffect }
    ensures lists { (kind : ListKind) → OfAllRead (listed kind) (BindsList kind) }
{}
