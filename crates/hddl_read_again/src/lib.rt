//! A law: the texts that are printed for an HDDL value are read again.
//! It stands on `hddl_texts`, whose texts they are, and on `text_values`, which reads texts. The layer above uses
//! `printed_hddl_is_read_again`.
#![tactic(auto)]

ghost use Rattle.std.specs.Prelude.{◌≤◌, ◌^◌, length};
ghost use Rattle.hddl_reader.specs.declared.sections.Language.TheVariants as language;
ghost use Rattle.plan_texts.specs.SoundProblem.{IsSoundProblem};
ghost use Rattle.plan_model.specs.plan_meaning.Laws.{AreOrdered};
ghost use Rattle.text_values.specs.form_spellings.Depth.{IsShallow};
ghost use Rattle.text_values.specs.form_spellings.Faultless.{HasFewTypes};
ghost use Rattle.hddl_texts.specs.PrintedHddl.{hddl_domain_text, hddl_problem_text};
ghost use Rattle.hddl_texts.specs.Ids.{with_ids, IsOfTwoTexts};
ghost use Rattle.hddl_read_again.specs.ReadAgain.{IsReadAgain};

use hddl_texts::printed_hddl_spells;
use plan_model::Hddl;
use text_values::spelled_texts_have_no_fault;

/// The two printed texts of a sound problem have no fault, and each value that they spell is alike to it but for the ids of
/// subtasks, where no network has a cycle, there are at most 1,000 types beside object, at most 67,108,864 words with the
/// ids, and at most 200 lists are open at a time in the texts. So a reader of them answers a value that is alike, if memory
/// lasts and each text has at most 16,777,216 bytes.
pub fn printed_hddl_is_read_again(problem: &Hddl)
    requires sound { IsSoundProblem problem.now }
    requires apart { IsOfTwoTexts problem.now }
    requires ordered { AreOrdered problem.now }
    requires types { HasFewTypes language.Hddl problem.now.types }
    requires names { length (with_ids problem.now).names ≤ 2 ^ 26 }
    requires shallow_domain { IsShallow (hddl_domain_text problem.now) }
    requires shallow_problem { IsShallow (hddl_problem_text problem.now) }
    ensures { IsReadAgain problem.now }
{
    spelled_texts_have_no_fault();
    printed_hddl_spells(problem);
}
