ghost use Rattle.std.specs.Prelude.{◌≡◌, [], ◌∷◌, IfOk, IfErr};
ghost use Rattle.outside_io.specs.Seen.{Seen};
ghost use Rattle.outside_io.specs.Calls.{got};
ghost use Rattle.outside_io.specs.Passed.{with_call};
ghost use Rattle.htn_cli.specs.Calling.{StopsGet, StopsGets};
ghost use Rattle.htn_cli.specs.Passing.{CallsAre, asked_bytes, gets};
ghost use Rattle.htn_cli.specs.Stops.{GivesInput, GivesTexts, StopsInput, StopsReading};

use crate::refusal::{Failure, Limit, Refusal};
use htn_base::limits::LONGEST_INPUT;
use outside_io::{Files, GetError};
use std::alloc::Global;

/// A get asks for one byte more than a text may have.
const ASKED_BYTES: u64 = LONGEST_INPUT as u64 + 1;

/// The texts of a domain and of a problem.
pub(crate) struct Sources {
    pub(crate) domain: Vec<u8>,
    pub(crate) problem: Vec<u8>,
}

impl Drop for Sources {
    fn drop(self) {
        let Sources {
            domain: _,
            problem: _,
        } = self;
    }
}

/// The texts of the files `d` and `p`, each with all its bytes.
pub(crate) fn read_two<'a, F: Files>(
    alloc: Global,
    files: &mut F,
    d: &'a str,
    p: &'a str,
) -> Result<Sources, Refusal<'a>>
    ensures read { IfOk result (λ s. Seen F.state (GivesTexts (d.now ∷ p.now ∷ []))
        files.old files.new (s.domain.items ∷ s.problem.items ∷ [])) }
    ensures refused { IfErr result
        (Seen F.state (StopsReading (d.now ∷ p.now ∷ [])) files.old files.new) }
    ensures passed { IfOk result (λ s. Seen F.passed CallsAre files.old files.new
        (gets (d.now ∷ p.now ∷ []) (s.domain.items ∷ s.problem.items ∷ []))) }
    ensures stopped { IfErr result
        (Seen F.passed (StopsGets (d.now ∷ p.now ∷ [])) files.old files.new) }
{
    let domain = read(alloc, files, d)?;
    let problem = read(alloc, files, p)?;
    Ok(Sources { domain, problem })
}

/// All bytes of the file with this name, at most 16,777,216.
pub(crate) fn read<'a, F: Files>(
    alloc: Global,
    files: &mut F,
    name: &'a str,
) -> Result<Vec<u8>, Refusal<'a>>
    ensures read { IfOk result (λ v.
        Seen F.state (GivesInput name.now) files.old files.new v.items) }
    ensures refused { IfErr result (Seen F.state (StopsInput name.now) files.old files.new) }
    ensures passed { IfOk result (λ v. F.passed files.new
        ≡ with_call (F.passed files.old) (got name.now asked_bytes v.items)) }
    ensures stopped { IfErr result (Seen F.passed (StopsGet name.now) files.old files.new) }
{
    match files.get(alloc, name, ASKED_BYTES) {
        Ok(bytes) => {
            if bytes.len() > LONGEST_INPUT {
                drop(bytes);
                Err(Refusal::Limit(Limit::Bytes(name)))
            } else {
                Ok(bytes)
            }
        }
        Err(GetError::Failed) => Err(Refusal::Failure(Failure::Reading(name))),
        Err(GetError::Memory) => Err(Refusal::Failure(Failure::Memory)),
    }
}
