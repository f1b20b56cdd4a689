// A form is whole exactly where it spells a value.
ghost use Rattle.std.specs.Prelude.{[]};
ghost use Rattle.gd_reader.specs.Grammar.{formula_form, effect_form};
ghost use Rattle.gd_reader.specs.ListGrammar.{params_form};
ghost use Rattle.gd_reader.specs.declared.typed_lists.ListKind.{ListKind};
ghost use Rattle.text_forms.specs.form_grammar.Definitions.{definition_form};
ghost use Rattle.text_forms.specs.form_grammar.Networks.{network_rows, subs, pairs, cons};
ghost use Rattle.text_forms.specs.form_grammar.Rows.{form};
ghost use Rattle.text_forms.specs.form_grammar.Sections.{section_rows, named, parts, predicate, task, method, action, network};
ghost use Rattle.text_values.specs.form_spellings.Exactly.{IsWholeExactlyWhere, IsCodedExactlyWhere, AreCodedExactlyWhere};
ghost use Rattle.text_values.specs.form_spellings.SpellsSomeParts.{SpellsSomeTask, SpellsSomeMethod, SpellsSomeAction};
ghost use Rattle.text_values.specs.form_spellings.SpellsSomeParts.{SpellsSomeTop, SpellsSomePredicate};
ghost use Rattle.text_values.specs.form_spellings.SpelledWhole.{HddlDomainsAreWhole, HddlProblemsAreWhole};
ghost use Rattle.text_values.specs.form_spellings.SpelledWhole.{PddlDomainsAreWhole, PddlProblemsAreWhole};
ghost use Rattle.text_values.specs.form_spellings.SpellsSomeSections.{SpellsSomeDefinition};
ghost use Rattle.text_values.specs.form_spellings.SpellsSomeNetwork.{SpellsSomeSubtasks, SpellsSomePairs, SpellsSomeConstraints};
ghost use Rattle.text_values.specs.form_spellings.SpellsSome.{SpellsSomeFormula, SpellsSomeEffect, SpellsSomeList};

/// A formula's form is whole exactly where it spells a formula over some declared words, in some scope.
pub fn whole_formulas()
    ensures { IsWholeExactlyWhere formula_form SpellsSomeFormula }
{}

/// An effect's form is whole exactly where it spells an effect, where an increase is the empty effect.
pub fn whole_effects()
    ensures { IsWholeExactlyWhere effect_form SpellsSomeEffect }
{}

/// A typed list of each kind is whole exactly where it spells a list of that kind.
pub fn whole_lists()
    ensures { (kind : ListKind) → IsWholeExactlyWhere (params_form kind []) (SpellsSomeList kind) }
{}

/// What stands behind a network's keyword is whole exactly where it spells subtasks, pairs of ids, or constraints, over some
/// declared words, tasks, actions and ids.
pub fn whole_networks()
    ensures subtasks { IsCodedExactlyWhere (form network_rows subs) SpellsSomeSubtasks }
    ensures pairs { IsCodedExactlyWhere (form network_rows pairs) SpellsSomePairs }
    ensures constraints { IsCodedExactlyWhere (form network_rows cons) SpellsSomeConstraints }
{}

/// What stands behind the keyword of a task, a method, an action or a problem's network, and a predicate's list, is whole exactly
/// where its parts stand each once under their keywords and each spells something.
pub fn whole_schemas()
    ensures tasks { IsCodedExactlyWhere (form section_rows (named task)) SpellsSomeTask }
    ensures methods { IsCodedExactlyWhere (form section_rows (named method)) SpellsSomeMethod }
    ensures actions { IsCodedExactlyWhere (form section_rows (named action)) SpellsSomeAction }
    ensures tops { IsCodedExactlyWhere (form section_rows (parts network [])) SpellsSomeTop }
    ensures predicates { IsCodedExactlyWhere (form section_rows predicate) SpellsSomePredicate }
{}

/// A text is whole as a domain or a problem, in either language, exactly where it is one definition whose sections stand as they
/// may and each spells something, over some declared words, tasks, actions and ids.
pub fn whole_definitions()
    ensures { AreCodedExactlyWhere definition_form SpellsSomeDefinition }
{}

/// A text that spells a domain or a problem as it is declared is whole, where no list of parameters and no quantifier declares a
/// variable twice.
pub fn spelled_definitions_are_whole()
    ensures hddl_domains { HddlDomainsAreWhole }
    ensures hddl_problems { HddlProblemsAreWhole }
    ensures pddl_domains { PddlDomainsAreWhole }
    ensures pddl_problems { PddlProblemsAreWhole }
{}
