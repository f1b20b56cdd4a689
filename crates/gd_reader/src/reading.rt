ghost use Rattle.std.specs.Prelude.{◌≡◌, ◌<◌, IfOk, IfErr};
ghost use Rattle.text_forms.specs.Placed.{parts_at};
ghost use Rattle.text_forms.specs.Tokens.{token_count};
ghost use Rattle.gd_reader.specs.Added.{AddsOf};
ghost use Rattle.gd_reader.specs.Calls.{IsFormulaRead, RefusesFormula, IsEffectRead, RefusesEffect, IsListRead, RefusesList};
ghost use Rattle.gd_reader.specs.Ends.{end_of};
ghost use Rattle.gd_reader.specs.Reading.{refusal, StandsInList};
ghost use Rattle.gd_reader.specs.Shown.{EndsAt};
ghost use Rattle.gd_reader.specs.Terms.{Keeps};

use crate::cursor::list_due;
use crate::effects::{RawEffect, effect_inside_of};
use crate::formulas::{RawFormula, inside_of};
use crate::raw_params::RawParams;
use crate::stop::{Failure, Stop};
use crate::typed_lists::{ListKind, params_of};
use htn_base::{Fault, NameTable};
use std::alloc::Global;
use text_forms::sexpr_text::{ReadError, Sexprs};

/// What was read, and the number of the token where reading goes on.
#[derive(Drop)]
pub struct Got<T> {
    pub value: T,
    pub next: u32,
}

/// The fault of a failure, in the text with so many bytes. Up to the end of a list the tokens never end too early.
pub fn refusal(failure: Failure, file: u8, end: u32) -> ReadError
    ensures refusal { result ≡ refusal file end failure }
{
    match failure {
        Failure::Memory => ReadError::Memory,
        Failure::At(Stop::Ends) => ReadError::Bad(Fault {
            code: 8,
            file,
            at: end,
        }),
        Failure::At(Stop::Departs(code, at)) => ReadError::Bad(Fault { code, file, at }),
    }
}

/// The formula at token `at`, and the number of the token behind it. `file` is the place of the text among the
/// command's inputs. `Bad` has the first token with which the tokens from `at` on no longer begin a formula:
/// code 9 where a reserved word would name a variable, 18 where a quantifier's variable is repeated, else 8.
pub fn formula(
    alloc: Global,
    s: &Sexprs<'_>,
    at: u32,
    file: u8,
    names: &mut NameTable,
) -> Result<Got<RawFormula>, ReadError>
    requires token { at < token_count s.now }
    ensures read { IfOk result (λ got. IsFormulaRead names.old s.now at (got.value, names.new)) }
    ensures next { IfOk result (λ got. EndsAt s.now at got.next) }
    ensures refused { IfErr result (RefusesFormula names.old s.now at file) }
    ensures keeps { Keeps names.old names.new }
    ensures adds { AddsOf s.now names.old names.new }
{
    let (inside, next) = match list_due(s, at) {
        Ok(found) => found,
        Err(failure) => return Err(refusal(failure, file, s.text_len())),
    };
    match inside_of(alloc, s, inside, names) {
        Ok(value) => Ok(Got { value, next }),
        Err(failure) => Err(refusal(failure, file, s.text_len())),
    }
}

/// The effect at token `at`, and the number of the token behind it. An increase is the empty effect. The rest
/// is as for a formula.
pub fn effect(
    alloc: Global,
    s: &Sexprs<'_>,
    at: u32,
    file: u8,
    names: &mut NameTable,
) -> Result<Got<RawEffect>, ReadError>
    requires token { at < token_count s.now }
    ensures read { IfOk result (λ got. IsEffectRead names.old s.now at (got.value, names.new)) }
    ensures next { IfOk result (λ got. EndsAt s.now at got.next) }
    ensures refused { IfErr result (RefusesEffect names.old s.now at file) }
    ensures keeps { Keeps names.old names.new }
    ensures adds { AddsOf s.now names.old names.new }
{
    let (inside, next) = match list_due(s, at) {
        Ok(found) => found,
        Err(failure) => return Err(refusal(failure, file, s.text_len())),
    };
    match effect_inside_of(alloc, s, inside, names) {
        Ok(value) => Ok(Got { value, next }),
        Err(failure) => Err(refusal(failure, file, s.text_len())),
    }
}

/// The typed list from token `at` up to the parenthesis that closes the list in which the token stands, whose
/// number is given too. Code 9 is for a reserved word where a name is declared, 18 for a repeated parameter.
pub fn typed_list(
    alloc: Global,
    s: &Sexprs<'_>,
    at: u32,
    file: u8,
    kind: ListKind,
    names: &mut NameTable,
) -> Result<Got<RawParams>, ReadError>
    requires stands { StandsInList s.now at }
    ensures read { IfOk result (λ got. IsListRead kind names.old s.now at (got.value, names.new)) }
    ensures next { IfOk result (λ got. parts_at s.now got.next ≡ end_of (parts_at s.now at)) }
    ensures refused { IfErr result (RefusesList kind names.old s.now at file) }
    ensures keeps { Keeps names.old names.new }
    ensures adds { AddsOf s.now names.old names.new }
{
    match params_of(alloc, s, at, kind, names) {
        Ok((value, next)) => Ok(Got { value, next }),
        Err(failure) => Err(refusal(failure, file, s.text_len())),
    }
}
