// What was read is bound to exactly what is spelled.
ghost use Rattle.hddl_reader.specs.declared.parts.Parted.TheVariants.{Task, Method, Action, Network};
ghost use Rattle.hddl_reader.specs.declared.sections.Language.TheVariants.{Pddl};
ghost use Rattle.hddl_reader.specs.Definitions.{IsDomainRead, IsProblemRead};
ghost use Rattle.hddl_reader.specs.Networks.{sub_headed, pair_headed, con_headed, one_of, some_of};
ghost use Rattle.hddl_reader.specs.Parts.{no_parts, parts};
ghost use Rattle.hddl_reader.specs.Sections.{predicate_headed, named_parts};
ghost use Rattle.text_values.specs.form_spellings.OfAllRead.{OfAllRead, OfAllOpened};
ghost use Rattle.text_values.specs.form_spellings.ReadNetworks.{AreReadSubtasks, AreReadPairs, AreReadConstraints};
ghost use Rattle.text_values.specs.form_spellings.ReadSchemas.{IsReadPredicate, IsReadTask, IsReadAction, IsReadMethod, IsReadTop};
ghost use Rattle.text_values.specs.form_spellings.ReadOf.{OfEachWhole};
ghost use Rattle.text_values.specs.form_spellings.ReadTexts.{BoundHddlIsSpelled, SpelledHddlIsBound};
ghost use Rattle.text_values.specs.form_spellings.ReadTexts.{BoundPddlIsSpelled, SpelledPddlIsBound};
ghost use Rattle.text_values.specs.form_spellings.ReadTexts.{HasNoTasks, HasNoNetwork};

/// What stands behind a network's keyword spells exactly the subtasks, pairs or constraints to which what was read of it is bound,
/// over all declared words, tasks, actions, variables and ids.
pub fn networks_spell_what_is_bound()
    ensures subtasks { OfAllOpened (some_of sub_headed) AreReadSubtasks }
    ensures pairs { OfAllOpened (some_of pair_headed) AreReadPairs }
    ensures constraints { OfAllOpened (some_of con_headed) AreReadConstraints }
{}

/// A predicate, and what stands behind the keyword of a task, an action, a method or a problem's network, spells exactly the values
/// to which what was read of it is bound.
pub fn schemas_spell_what_is_bound()
    ensures predicates { OfAllOpened (one_of predicate_headed) IsReadPredicate }
    ensures tasks { OfAllRead (named_parts Task) IsReadTask }
    ensures actions { OfAllRead (named_parts Action) IsReadAction }
    ensures methods { OfAllRead (named_parts Method) IsReadMethod }
    ensures tops { OfAllRead (parts Network no_parts) IsReadTop }
{}

/// Two texts of which a domain and a problem were read, both as HDDL or both as PDDL, spell a value of their language exactly where
/// what was read is bound to it.
pub fn texts_spell_what_is_bound()
    ensures spelled { BoundHddlIsSpelled }
    ensures bound { SpelledHddlIsBound }
    ensures pddl_spelled { BoundPddlIsSpelled }
    ensures pddl_bound { SpelledPddlIsBound }
{}

/// What is read of a PDDL domain has no tasks and no methods, and what is read of a PDDL problem has no network.
pub fn pddl_texts_have_no_networks()
    ensures domains { OfEachWhole (IsDomainRead Pddl) (λ text table. HasNoTasks) }
    ensures problems { OfEachWhole (IsProblemRead Pddl) (λ text table. HasNoNetwork) }
{}
