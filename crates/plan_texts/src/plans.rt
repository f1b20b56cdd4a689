// Texts of classical plans.
ghost use Rattle.std.specs.Prelude.{List};
ghost use Rattle.plan_model.specs.declared.steps.GroundAction.{GroundAction};
ghost use Rattle.plan_texts.specs.PlanText.{SpellsOnePlan, IsSpelledByItsText};

/// A text spells one list of steps at most, and the printed text of steps whose words are folded names spells them.
pub fn plan_law(text: &[u8])
    ensures one { SpellsOnePlan text.now }
    ensures printed { (steps : List GroundAction) → IsSpelledByItsText steps }
{}
