// What is read is whole in the grammar with codes, and a fault is the token that departs from it, with its code.
ghost use Rattle.std.specs.Prelude.{◌≡◌, ◌↔◌, ℕ, true, List, []};
ghost use Rattle.text_forms.specs.Words.{Word, is_name};
ghost use Rattle.text_forms.specs.form_grammar.Effects.{effect_form};
ghost use Rattle.text_forms.specs.form_grammar.Formulas.{formula_form};
ghost use Rattle.text_forms.specs.form_grammar.Laws.{HasAllPrefixLaws};
ghost use Rattle.text_forms.specs.form_grammar.Lists as due;
ghost use Rattle.text_forms.specs.form_grammar.Rows.{form};
ghost use Rattle.text_forms.specs.form_grammar.Words.{is_variable_word};
ghost use Rattle.gd_reader.specs.declared.typed_lists.ListKind.{ListKind};
ghost use Rattle.gd_reader.specs.declared.words.Sort.TheVariants as sorts;
ghost use Rattle.gd_reader.specs.Answers as answers;
ghost use Rattle.gd_reader.specs.Calls.{IsFormulaRead, RefusesFormula, IsEffectRead, RefusesEffect, IsListRead, RefusesList};
ghost use Rattle.gd_reader.specs.Effects.{effect_read};
ghost use Rattle.gd_reader.specs.Formulas.{formula_read};
ghost use Rattle.gd_reader.specs.Grammar as plain;
ghost use Rattle.gd_reader.specs.ListGrammar.{params_form};
ghost use Rattle.gd_reader.specs.Terms as read;
ghost use Rattle.gd_reader.specs.TypedLists.{union, listed};
ghost use Rattle.gd_reader.specs.Words.{sort_of};
ghost use Rattle.hddl_reader.specs.Calls.{ReadsWhole, FaultsDepart};
ghost use Rattle.hddl_reader.specs.Said.{AnswersAs, typed_form, two_terms_form};
ghost use Rattle.hddl_reader.specs.SameForms.{AreSameForms};

/// A formula that is read is whole in the grammar with codes, and where it is refused with a fault, the token at the fault's
/// place departs, with its code. The reading function answers what the grammar says of any tokens, and the form without codes,
/// by which the call's contract says what is whole and what begins, is the same. From any token of a text on, the token that
/// departs is the first with which the tokens no longer begin a formula.
pub fn formulas_have_the_codes_of_the_grammar()
    ensures answers { AnswersAs formula_form formula_read }
    ensures read { ReadsWhole formula_form IsFormulaRead }
    ensures refused { FaultsDepart formula_form RefusesFormula }
    ensures same { AreSameForms plain.formula_form formula_form }
    ensures prefixes { (text : List ℕ) → HasAllPrefixLaws formula_form text }
{}

/// The same of typed lists of each kind.
pub fn typed_lists_have_the_codes_of_the_grammar()
    ensures answers { (kind : ListKind) → AnswersAs (typed_form kind) (listed kind) }
    ensures read { (kind : ListKind) → ReadsWhole (typed_form kind) (IsListRead kind) }
    ensures refused { (kind : ListKind) → FaultsDepart (typed_form kind) (RefusesList kind) }
    ensures same { (kind : ListKind) → AreSameForms (params_form kind []) (typed_form kind) }
    ensures prefixes { (kind : ListKind) (text : List ℕ) → HasAllPrefixLaws (typed_form kind) text }
{}

/// The same of effects.
pub fn effects_have_the_codes_of_the_grammar()
    ensures answers { AnswersAs effect_form effect_read }
    ensures read { ReadsWhole effect_form IsEffectRead }
    ensures refused { FaultsDepart effect_form RefusesEffect }
    ensures same { AreSameForms plain.effect_form effect_form }
    ensures prefixes { (text : List ℕ) → HasAllPrefixLaws effect_form text }
{}

/// The same of the answers for terms, atoms, unions and what an increase passes over, each up to the end of its list.
pub fn parts_have_the_codes_of_the_grammar()
    ensures ends { AnswersAs (form due.term_rows due.ended) (λ names. answers.end_due) }
    ensures terms { AnswersAs (form due.term_rows due.terms) read.terms }
    ensures two_terms { AnswersAs two_terms_form read.two_terms }
    ensures atoms { AnswersAs (form due.term_rows due.applied) read.applied }
    ensures passed { AnswersAs (form due.term_rows due.anything) (λ names. answers.passed) }
    ensures unions { AnswersAs (form due.list_rows due.union) union }
{}

/// A word is a name, or a variable, by its sort exactly where the grammar's tests say so.
pub fn words_are_sorted_as_the_grammar_tests_them()
    ensures names { (w : Word) → (sort_of w ≡ sorts.Name) ↔ (is_name w ≡ true) }
    ensures variables { (w : Word) → (sort_of w ≡ sorts.Variable) ↔ (is_variable_word w ≡ true) }
{}
