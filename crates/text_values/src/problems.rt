ghost use Rattle.std.specs.Prelude.{◌≤◌, length, IfOk, IfErr};
ghost use Rattle.htn_base.specs.Limits.{longest_input};
ghost use Rattle.text_values.specs.Reading.{IsReadOver, RefusesProblem};

use crate::domains::read_error;
use crate::reading::read_problem;
use hddl_bind::{BoundDomain, bind_problem};
use hddl_reader::Language;
use htn_base::NameTable;
use plan_model::Hddl;
use std::alloc::Global;
use text_forms::sexpr_text::ReadError;

/// What is read of a problem's text over a domain and bound, or the text's least fault, by phase, offset and code.
pub(crate) fn value_over(
    alloc: Global,
    language: Language,
    names: &mut NameTable,
    domain: BoundDomain,
    text: &[u8],
) -> Result<Hddl, ReadError>
    requires short { length text.now ≤ longest_input }
    ensures value { IfOk result (IsReadOver language names.old domain text.now) }
    ensures refused { IfErr result (RefusesProblem language names.old domain text.now) }
{
    match read_problem(alloc, language, text, names) {
        Ok(problem) => match bind_problem(alloc, names, domain, problem) {
            Ok(value) => Ok(value),
            Err(error) => Err(read_error(error)),
        },
        Err(error) => {
            drop(domain);
            Err(error)
        }
    }
}
