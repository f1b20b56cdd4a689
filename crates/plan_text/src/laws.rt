// Laws of plans as texts, each the contract of a function that does nothing.
ghost use Rattle.plan_text.specs.Laws.{IsFaultlessExactlyWhereSpelled, SpellsPrintableSteps, PrintableStepsAreReadBack};

/// A text spells a plan exactly where neither its tokens nor its form has a fault, and the words of that plan are folded names.
pub fn faultless_texts_spell_plans(text: &[u8])
    ensures exactly { IsFaultlessExactlyWhereSpelled text.now }
    ensures printable { SpellsPrintableSteps text.now }
{}

/// What is printed for steps whose words are folded names is read back as it was: it has no fault, and spells these steps alone.
pub fn printed_plans_are_read_back()
    ensures { PrintableStepsAreReadBack }
{}
