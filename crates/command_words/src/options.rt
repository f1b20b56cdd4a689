ghost use Rattle.std.specs.Prelude.{◌≡◌, ◌↔◌, IsTrue};
ghost use Rattle.std.specs.Option.{option_copied};
ghost use Rattle.command_words.specs.Names.{words_of};
ghost use Rattle.command_words.specs.Options.{AreSlots, checks_said, form_said, IsComputed, IsOfForm, level_said, rule_said, slots_said, style_said};

use crate::bounds::is_numeral;
use crate::form::PrintedForm;
use crate::forms::said;
use crate::level::Level;
use plan_model::{Checks, Slots, Style};

/// The word for a number of slots, where the options have one.
pub(crate) fn slots(options: &[String]) -> Option<&str>
    ensures { option_copied result ≡ slots_said (words_of options.now) }
{
    said("--bound", options)
}

/// Whether the word, where there is one, is a number of slots.
pub(crate) fn are_slots(word: Option<&str>) -> bool
    ensures { IsTrue result ↔ AreSlots (option_copied word.entry) }
{
    match word {
        Some(word) => is_numeral(word),
        None => true,
    }
}

/// The style that the options say; `None` where its word is of no style.
pub(crate) fn style(options: &[String]) -> Option<Style>
    ensures { result ≡ style_said (words_of options.now) }
{
    match said("--style", options) {
        None => Some(Style::Adl),
        Some(word) if word == "adl" => Some(Style::Adl),
        Some(word) if word == "flat" => Some(Style::Flat),
        Some(_) => None,
    }
}

/// The checks that the options say; `None` where their word is of no checks.
pub(crate) fn checks(options: &[String]) -> Option<Checks>
    ensures { result ≡ checks_said (words_of options.now) }
{
    match said("--checks", options) {
        None => Some(Checks::Leaf),
        Some(word) if word == "leaf" => Some(Checks::Leaf),
        Some(word) if word == "atonce" => Some(Checks::AtOnce),
        Some(_) => None,
    }
}

/// The rule for new slots that the options say; `None` where its word is of no rule.
pub(crate) fn rule(options: &[String]) -> Option<Slots>
    ensures { result ≡ rule_said (words_of options.now) }
{
    match said("--slots", options) {
        None => Some(Slots::Any),
        Some(word) if word == "any" => Some(Slots::Any),
        Some(word) if word == "first" => Some(Slots::First),
        Some(_) => None,
    }
}

/// The form that the options say; `None` where their word is of no form.
pub(crate) fn form(options: &[String]) -> Option<PrintedForm>
    ensures { result ≡ form_said (words_of options.now) }
{
    match said("--form", options) {
        None => Some(PrintedForm::Slots),
        Some(word) if word == "slots" => Some(PrintedForm::Slots),
        Some(word) if word == "stack" => Some(PrintedForm::Stack),
        Some(_) => None,
    }
}

/// Whether a style and a rule for new slots are said only of slots.
pub(crate) fn is_of_form(options: &[String], form: PrintedForm) -> bool
    ensures { IsTrue result ↔ IsOfForm form (words_of options.now) }
{
    match form {
        PrintedForm::Slots => true,
        PrintedForm::Stack => {
            said("--style", options).is_none() && said("--slots", options).is_none()
        }
    }
}

/// The level that the options say; `None` where its word is of no level.
pub(crate) fn level(options: &[String]) -> Option<Level>
    ensures { result ≡ level_said (words_of options.now) }
{
    match said("--level", options) {
        None => Some(Level::Lifted),
        Some(word) if word == "lifted" => Some(Level::Lifted),
        Some(word) if word == "ground" => Some(Level::Ground),
        Some(_) => None,
    }
}

/// Whether a level is said only where no number of slots is given.
pub(crate) fn is_computed(options: &[String]) -> bool
    ensures { IsTrue result ↔ IsComputed (words_of options.now) }
{
    match slots(options) {
        Some(_) => said("--level", options).is_none(),
        None => true,
    }
}
