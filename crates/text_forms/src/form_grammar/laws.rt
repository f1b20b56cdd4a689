//! The laws of the grammars, each the contract of a function that does nothing.

ghost use Rattle.std.specs.Prelude.{ℕ};
ghost use Rattle.text_forms.specs.Faults.{IsFaultless};
ghost use Rattle.text_forms.specs.form_grammar.Codes.{Form, ◌followed_by◌};
ghost use Rattle.text_forms.specs.form_grammar.Laws.{HasOneDeparture, IsSequence, KeepsForms, BeginsWhatCanBeWhole};
ghost use Rattle.text_forms.specs.form_grammar.Laws.{HasPrefixLaws, HasAllPrefixLaws};
ghost use Rattle.text_forms.specs.form_grammar.Laws.{TellsDefineFault, TellsPlanFault, TellsPlanFaults};
ghost use Rattle.text_forms.specs.form_grammar.DefinitionLaws.{TellsDefinitionFaults, HasDefinitionPrefixLaws};
ghost use Rattle.text_forms.specs.form_grammar.Rows.{form, list_form};
ghost use Rattle.text_forms.specs.form_grammar.Texts.{text_form, one_list_form};
ghost use Rattle.text_forms.specs.form_grammar.Lists.{ListDue, term_rows, list_rows};
ghost use Rattle.text_forms.specs.form_grammar.Formulas.{gd, formula_rows, of_terms, of_list};
ghost use Rattle.text_forms.specs.form_grammar.Effects.{eff, effect_rows, of_formula};
ghost use Rattle.text_forms.specs.form_grammar.Networks.{NetworkDue, network_rows};
ghost use Rattle.text_forms.specs.form_grammar.Sections.{Language, domain, section_rows, of_effect, of_network};
ghost use Rattle.text_forms.specs.form_grammar.Definitions.{definition_form};
ghost use Rattle.text_forms.specs.form_grammar.Plans.{step, step_rows, steps_form};
ghost use Rattle.text_forms.specs.StepWords.{is_mark};

use crate::form_grammar::grammar::{Grammar, TextGrammar};

/// Tokens that do not begin a form have exactly one token that departs, with exactly one code; a whole text begins its form.
pub fn one_token_departs()
    ensures one { (f : Form) → HasOneDeparture f }
    ensures sequences { (f g : Form) → IsSequence f g (f followed_by g) }
{}

/// From any token of a text on: prefixes of what begins a form begin it, the token that departs is the first with
/// which the tokens no longer begin it, and longer prefixes depart at the same token with the same code.
pub fn prefixes_begin<G: Grammar>(text: &[u8])
    ensures lists { (due : G.due) → HasAllPrefixLaws (form G.rows due) text.now }
    ensures one { (code : ℕ) (due : G.due) → HasAllPrefixLaws (list_form G.rows code due) text.now }
{}

/// The same over whole texts.
pub fn prefixes_begin_texts<G: TextGrammar>(text: &[u8])
    ensures texts { (due : G.outside) → HasAllPrefixLaws (text_form G.rows G.texts due) text.now }
{}

/// The fault of form of a text without faults of tokens: a domain or a problem, which is one list, and a classical
/// plan, whose lists may have marks.
pub fn faults_are_departures<G: Grammar>(text: &[u8])
    ensures define { IsFaultless text.now → TellsDefineFault G.rows G.inside text.now }
    ensures plan { IsFaultless text.now → TellsPlanFaults G.rows G.inside text.now }
{}

/// Of domains and problems in either language, and of classical plans.
pub fn definitions_and_plans_have_one_fault(text: &[u8])
    ensures define { IsFaultless text.now → TellsDefinitionFaults text.now }
    ensures plan { IsFaultless text.now → TellsPlanFault step_rows step is_mark text.now }
    ensures prefixes { HasDefinitionPrefixLaws text.now }
    ensures plan_prefixes { HasPrefixLaws steps_form text.now 0 }
{}

/// Terms, typed lists, formulas, effects and networks have the same forms alone as in a domain or a problem.
pub fn parts_keep_their_forms()
    ensures terms { KeepsForms term_rows section_rows (λ d. of_effect (of_formula (of_terms d))) }
    ensures lists { KeepsForms list_rows section_rows (λ d. of_effect (of_formula (of_list d))) }
    ensures formulas { KeepsForms formula_rows section_rows (λ d. of_effect (of_formula d)) }
    ensures effects { KeepsForms effect_rows section_rows of_effect }
    ensures networks { KeepsForms network_rows section_rows of_network }
{}

/// Tokens begin a domain, a classical plan, or a text that is one formula, effect, typed list or list of a network, exactly
/// where more tokens behind them make it whole. (Not so a problem: a parenthesis begins one more section where all stand.)
pub fn begins_what_can_be_whole()
    ensures domains { (l : Language) → BeginsWhatCanBeWhole (definition_form l domain) }
    ensures plans { BeginsWhatCanBeWhole steps_form }
    ensures formulas { BeginsWhatCanBeWhole (one_list_form formula_rows gd) }
    ensures effects { BeginsWhatCanBeWhole (one_list_form effect_rows eff) }
    ensures lists { (d : ListDue) → BeginsWhatCanBeWhole (one_list_form list_rows d) }
    ensures networks { (d : NetworkDue) → BeginsWhatCanBeWhole (one_list_form network_rows d) }
{}
