ghost use Rattle.std.specs.Prelude.{◌≡◌, ◌++◌, IfOk, IfErr, OnOk};
ghost use Rattle.gd_reader.specs.Terms.{Keeps};
ghost use Rattle.name_binding.specs.Spots.{noted};
ghost use Rattle.name_binding.specs.Unions.{AreWith};
ghost use Rattle.hddl_bind.specs.DeclaredNames.{second_objects};
ghost use Rattle.hddl_bind.specs.WholeProblems as spec;
ghost use Rattle.hddl_bind.specs.WholeUnions.{problem_unions};

use crate::bound_domain::BoundDomain;
use crate::domain_names::DomainNames;
use crate::errors::{BindError, judged};
use crate::problem_parts::{ProblemParts, parts_of};
use crate::seconds::seconds_of;
use crate::whole_unions::unions_of_problem;
use hddl_reader::RawProblem;
use htn_base::{List, Memory, NameTable, WordList, number};
use name_binding::Faults;
use plan_model::{Hddl, Object};
use std::alloc::Global;

/// The value for which a domain stands with an HDDL problem that was read, or the problem's least fault, by offset and then by code:
/// 10, 11, 13 to 17 or 19 to 21. The table gets the word `htn_start`, the name of the top method.
pub fn bind_problem(
    alloc: Global,
    names: &mut NameTable,
    d: BoundDomain,
    p: RawProblem,
) -> Result<Hddl, BindError>
    ensures bound { IfOk result (spec.IsProblemBound d p names.old) }
    ensures refused { IfErr result (spec.IsProblemRefused d p) }
    ensures keeps { Keeps names.old names.new }
    ensures table { OnOk result (names.new ≡ spec.with_start names.old) }
{
    let mut d = d;
    let mut faults = Faults::new();
    let noted = noted_problem(alloc, names, &mut d, &p, &mut faults);
    let problem = p.name;
    drop(p);
    match noted {
        Ok((words, parts)) => judged(d.together(words, problem, parts), faults, 1),
        Err(_) => {
            drop(d);
            Err(BindError::Memory)
        }
    }
}

/// The words of both texts with that of the top method, and what a problem says, with its faults noted. The domain gets its
/// objects, its unions and its names.
#[tactic(auto, using(gd_reader::proofs::Keeping::keeps_same, gd_reader::proofs::Keeping::keeps_word))]
fn noted_problem(
    alloc: Global,
    names: &mut NameTable,
    d: &mut BoundDomain,
    p: &RawProblem,
    faults: &mut Faults,
) -> Result<(WordList, ProblemParts), Memory>
    ensures words { IfOk result (λ noted. noted.0 ≡ spec.with_start names.old) }
    ensures keeps { Keeps names.old names.new }
    ensures table { OnOk result (names.new ≡ spec.with_start names.old) }
    ensures noted { IfOk result (λ noted. spec.IsNotedWithStart d.old p.now noted.0
        faults.old.least faults.new.least d.new noted.1) }
{
    let start = names.intern(b"htn_start")?;
    let words = names.to_list(alloc)?;
    let task = number(d.tasks.len())?;
    add_names(alloc, &mut d.names, p, faults)?;
    d.types.unions = d.names.known.types.unions_of(alloc)?;
    let parts = parts_of(
        alloc,
        &d.names.known,
        &d.names.callables,
        start,
        task,
        p,
        faults,
    )?;
    add_objects(&mut d.objects, parts.objects.as_slice())?;
    Ok((words, parts))
}

/// Puts the names of a problem to those of its domain: its objects behind the constants, and its unions behind the others.
fn add_names(
    alloc: Global,
    names: &mut DomainNames,
    p: &RawProblem,
    faults: &mut Faults,
) -> Result<(), Memory>
    ensures unions { OnOk result (AreWith (problem_unions names.old.known.types p.now)
        names.old.known.types.unions names.new.known.types.unions) }
    ensures names { OnOk result (names.new.known
        ≡ spec.known_with names.old.known names.new.known.types.unions p.now) }
    ensures callables { names.new.callables ≡ names.old.callables }
    ensures faults { OnOk result (faults.new.least
        ≡ noted faults.old.least (second_objects names.old.known.objects p.now.objects)) }
{
    seconds_of(&mut names.known.objects, p.objects.as_slice(), faults)?;
    let found = unions_of_problem(alloc, &names.known.types, p)?;
    names.known.types.add_unions(alloc, found)
}

/// Puts objects behind the others.
fn add_objects(into: &mut List<Object>, objects: &[Object]) -> Result<(), Memory>
    ensures added { OnOk result (into.new ≡ into.old ++ objects.now) }
{
    for object in objects {
        into.push(*object)?;
    }
    Ok(())
}
