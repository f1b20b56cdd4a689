ghost use Rattle.std.specs.Prelude.{◌≡◌, ◌≤◌, ◌+◌, length, IfOk, IfErr, OnOk};
ghost use Rattle.htn_base.specs.Limits.{longest_input};
ghost use Rattle.htn_base.specs.Different.{AreDifferent};
ghost use Rattle.text_forms.specs.Faults.{IsFaultless};
ghost use Rattle.text_forms.specs.form_grammar.Sections as grammar;
ghost use Rattle.gd_reader.specs.Terms.{Keeps};
ghost use Rattle.text_forms.specs.sexpr_text.Refused.{IsRefusal};
ghost use Rattle.text_values.specs.Reading.{ReadsDomain, ReadsProblem, RefusesForm};

use hddl_reader::{Language, RawDomain, RawProblem, domain, problem};
use htn_base::NameTable;
use std::alloc::Global;
use text_forms::sexpr_text::{ReadError, Sexprs, read, read_with_index};

// A text of at most so many bytes is read with an index of its tokens. That takes 8 bytes a token, up to eight times the
// length of the text, so of a longer one only the place of every eighth token is kept: most of it are facts, which are
// read from first to last.
const MOST_BYTES_WITH_INDEX: usize = 1_048_576;

fn tokens_of<'a>(alloc: Global, text: &'a [u8], file: u8) -> Result<Sexprs<'a>, ReadError>
    requires short { length text.now ≤ longest_input }
    ensures text { IfOk result (λ s. s ≡ text.now) }
    ensures faultless { IfOk result (λ _. IsFaultless text.now) }
    ensures refused { IfErr result (IsRefusal text.now file) }
{
    if text.len() <= MOST_BYTES_WITH_INDEX {
        read_with_index(alloc, text, file)
    } else {
        read(alloc, text, file)
    }
}

/// The domain as it is written, or its fault of tokens or of form.
pub(crate) fn read_domain(
    alloc: Global,
    language: Language,
    text: &[u8],
    names: &mut NameTable,
) -> Result<RawDomain, ReadError>
    requires short { length text.now ≤ longest_input }
    ensures read { IfOk result (ReadsDomain language text.now names.old names.new) }
    ensures refused { IfErr result (RefusesForm language grammar.domain 0 text.now) }
    ensures differ { OnOk result (AreDifferent names.new) }
    ensures few { OnOk result (length names.new ≤ length names.old + length text.now) }
    ensures keeps { OnOk result (Keeps names.old names.new) }
{
    match tokens_of(alloc, text, 0) {
        Ok(s) => domain_of(alloc, language, &s, names),
        Err(error) => Err(error),
    }
}

fn domain_of(
    alloc: Global,
    language: Language,
    s: &Sexprs<'_>,
    names: &mut NameTable,
) -> Result<RawDomain, ReadError>
    requires faultless { IsFaultless s.now }
    ensures read { IfOk result (ReadsDomain language s.now names.old names.new) }
    ensures refused { IfErr result (RefusesForm language grammar.domain 0 s.now) }
    ensures differ { AreDifferent names.new }
    ensures few { length names.new ≤ length names.old + length s.now }
    ensures keeps { Keeps names.old names.new }
{
    let domain = domain(alloc, s, 0, language, names);
    differ(names);
    domain
}

/// The problem as it is written, or its fault of tokens or of form.
pub(crate) fn read_problem(
    alloc: Global,
    language: Language,
    text: &[u8],
    names: &mut NameTable,
) -> Result<RawProblem, ReadError>
    requires short { length text.now ≤ longest_input }
    ensures read { IfOk result (ReadsProblem language text.now names.old names.new) }
    ensures refused { IfErr result (RefusesForm language grammar.problem 1 text.now) }
    ensures differ { OnOk result (AreDifferent names.new) }
    ensures few { OnOk result (length names.new ≤ length names.old + length text.now) }
    ensures keeps { OnOk result (Keeps names.old names.new) }
{
    match tokens_of(alloc, text, 1) {
        Ok(s) => problem_of(alloc, language, &s, names),
        Err(error) => Err(error),
    }
}

fn problem_of(
    alloc: Global,
    language: Language,
    s: &Sexprs<'_>,
    names: &mut NameTable,
) -> Result<RawProblem, ReadError>
    requires faultless { IsFaultless s.now }
    ensures read { IfOk result (ReadsProblem language s.now names.old names.new) }
    ensures refused { IfErr result (RefusesForm language grammar.problem 1 s.now) }
    ensures differ { AreDifferent names.new }
    ensures few { length names.new ≤ length names.old + length s.now }
    ensures keeps { Keeps names.old names.new }
{
    let problem = problem(alloc, s, 1, language, names);
    differ(names);
    problem
}

/// No word stands twice in a table of names.
pub(crate) fn differ(names: &NameTable)
    ensures { AreDifferent names.now }
{
    let _count = names.len();
}
