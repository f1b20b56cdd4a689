ghost use Rattle.std.specs.Prelude.{◌≤◌, length, IfOk, IfErr};
ghost use Rattle.htn_base.specs.Limits.{longest_input};
ghost use Rattle.hddl_reader.specs.declared.sections.Language.TheVariants as languages;
ghost use Rattle.text_values.specs.ReadAs.{AreReadAs};
ghost use Rattle.text_values.specs.Values.{IsValueOf, IsRefusal};

use crate::domains::bound_domain;
use crate::form_spellings::binding_laws::read_values_are_sound;
use crate::problems::value_over;
use hddl_reader::Language;
use htn_base::NameTable;
use plan_model::Hddl;
use std::alloc::Global;
use text_forms::sexpr_text::ReadError;

/// The value that two HDDL texts spell, a domain's and a problem's, each of at most 16,777,216 bytes. `Bad` has their least fault,
/// by file (0 for the domain, 1 for the problem), phase (tokens, form, names), offset in bytes and code.
pub fn hddl_of(alloc: Global, domain: &[u8], problem: &[u8]) -> Result<Hddl, ReadError>
    requires domain_short { length domain.now ≤ longest_input }
    requires problem_short { length problem.now ≤ longest_input }
    ensures value { IfOk result (IsValueOf domain.now problem.now) }
    ensures refused { IfErr result (IsRefusal domain.now problem.now languages.Hddl) }
{
    // a law, which does nothing
    read_values_are_sound();
    read_as(alloc, Language::Hddl, domain, problem)
}

/// What two texts of a language are read as, a domain's and a problem's, each of at most 16,777,216 bytes, with their names bound:
/// of PDDL without tasks, methods and a network. `Bad` has their least fault, as that of `hddl_of`.
pub fn read_as(
    alloc: Global,
    language: Language,
    domain: &[u8],
    problem: &[u8],
) -> Result<Hddl, ReadError>
    requires domain_short { length domain.now ≤ longest_input }
    requires problem_short { length problem.now ≤ longest_input }
    ensures read { IfOk result (AreReadAs domain.now problem.now language) }
    ensures refused { IfErr result (IsRefusal domain.now problem.now language) }
{
    let mut names = NameTable::new(alloc);
    match bound_domain(alloc, language, domain, &mut names) {
        Ok(bound) => value_over(alloc, language, &mut names, bound, problem),
        Err(error) => Err(error),
    }
}
