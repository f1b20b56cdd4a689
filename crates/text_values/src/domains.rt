ghost use Rattle.std.specs.Prelude.{◌≤◌, ◌≡◌, ◌+◌, [], length, IfOk, IfErr, OnOk};
ghost use Rattle.htn_base.specs.Limits.{longest_input};
ghost use Rattle.htn_base.specs.Different.{AreDifferent};
ghost use Rattle.gd_reader.specs.Terms.{Keeps};
ghost use Rattle.name_binding.specs.Cycle.{IsSection};
ghost use Rattle.hddl_bind.specs.WholeDomains.{IsDomainBound};
ghost use Rattle.text_values.specs.Reading.{IsBoundText, RefusesDomain, RefusesNames, read_error};

use crate::reading::{differ, read_domain};
use hddl_bind::{BindError, BoundDomain, bind_domain};
use hddl_reader::{Language, RawDomain};
use htn_base::NameTable;
use std::alloc::Global;
use text_forms::sexpr_text::ReadError;

/// The domain of a text with its names bound, or its least fault, by phase, offset and code.
pub(crate) fn bound_domain(
    alloc: Global,
    language: Language,
    text: &[u8],
    names: &mut NameTable,
) -> Result<BoundDomain, ReadError>
    requires short { length text.now ≤ longest_input }
    requires empty { names.old ≡ [] }
    ensures bound { IfOk result (IsBoundText language text.now names.new) }
    ensures refused { IfErr result (RefusesDomain language text.now) }
{
    match read_domain(alloc, language, text, names) {
        Ok(domain) => bound_names(alloc, language, domain, names),
        Err(error) => Err(error),
    }
}

/// The same of a domain that was read.
fn bound_names(
    alloc: Global,
    language: Language,
    domain: RawDomain,
    names: &mut NameTable,
) -> Result<BoundDomain, ReadError>
    requires section { IsSection domain.types }
    ensures bound { IfOk result (IsDomainBound language names.new domain) }
    ensures refused { IfErr result (RefusesNames language names.new domain) }
    ensures differ { AreDifferent names.new }
    ensures few { OnOk result (length names.new ≤ length names.old + 1) }
    ensures keeps { Keeps names.old names.new }
{
    let bound = bind_domain(alloc, language, names, domain);
    differ(names);
    match bound {
        Ok(bound) => Ok(bound),
        Err(error) => Err(read_error(error)),
    }
}

/// A refusal of names, as that of a reader.
pub(crate) fn read_error(error: BindError) -> ReadError
    ensures same { result ≡ read_error error }
{
    match error {
        BindError::Bad(fault) => ReadError::Bad(fault),
        BindError::Memory => ReadError::Memory,
    }
}
