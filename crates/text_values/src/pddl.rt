ghost use Rattle.std.specs.Prelude.{◌≤◌, length, IfOk, IfErr};
ghost use Rattle.htn_base.specs.Limits.{longest_input};
ghost use Rattle.text_values.specs.PddlValues.{IsValueOf, IsRefusal};

use crate::form_spellings::binding_laws::read_pddl_is_its_value;
use crate::values::read_as;
use hddl_reader::Language;
use plan_model::Pddl;
use std::alloc::Global;
use text_forms::sexpr_text::ReadError;

/// The value that two PDDL texts spell, a domain's and a problem's, each of at most 16,777,216 bytes. `Bad` has their least fault,
/// by file (0 for the domain, 1 for the problem), phase (tokens, form, names), offset in bytes and code.
pub fn pddl_of(alloc: Global, domain: &[u8], problem: &[u8]) -> Result<Pddl, ReadError>
    requires domain_short { length domain.now ≤ longest_input }
    requires problem_short { length problem.now ≤ longest_input }
    ensures value { IfOk result (IsValueOf domain.now problem.now) }
    ensures refused { IfErr result (IsRefusal domain.now problem.now) }
{
    // a law, which does nothing
    read_pddl_is_its_value();
    match read_as(alloc, Language::Pddl, domain, problem) {
        Ok(value) => Ok(value.without_tasks()),
        Err(error) => Err(error),
    }
}
