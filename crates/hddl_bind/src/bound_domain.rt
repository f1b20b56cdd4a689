ghost use Rattle.std.specs.Prelude.{◌≡◌, codes, IfOk, IfErr, OnOk};
ghost use Rattle.htn_base.specs.Table.{with_word};
ghost use Rattle.gd_reader.specs.Terms.{Keeps};
ghost use Rattle.name_binding.specs.Cycle.{IsSection};
ghost use Rattle.hddl_reader.specs.names.Types.{most_types};
ghost use Rattle.hddl_bind.specs.WholeDomains as spec;

use crate::domain_names::{DomainNames, names_of};
use crate::domain_schemas::schemas_of;
use crate::errors::{BindError, judged};
use crate::problem_parts::ProblemParts;
use crate::whole_unions::unions_of_domain;
use hddl_reader::{Language, RawDomain};
use htn_base::limits::{MOST_PDDL_TYPES, MOST_TYPES};
use htn_base::{List, Memory, Name, NameTable, WordList};
use name_binding::{Faults, TypeTable, section_of, types_of};
use plan_model::{ActionSchema, Hddl, MethodSchema, Object, Predicate, TaskSchema, Types};
use std::alloc::Global;

/// A domain with its names bound, and the names by which its problems are bound. The objects are its constants.
pub struct BoundDomain {
    pub domain: Name,
    pub types: Types,
    pub objects: List<Object>,
    pub predicates: List<Predicate>,
    pub tasks: List<TaskSchema>,
    pub actions: List<ActionSchema>,
    pub methods: List<MethodSchema>,
    pub names: DomainNames,
}

impl Drop for BoundDomain {
    fn drop(self) {
        let BoundDomain {
            domain: _,
            types: _,
            objects: _,
            predicates: _,
            tasks: _,
            actions: _,
            methods: _,
            names: _,
        } = self;
    }
}

impl BoundDomain {
    ghost use Rattle.hddl_bind.specs.WholeProblems.{together};

    /// The value of the domain and a problem, with these words.
    pub(crate) fn together(self, names: WordList, problem: Name, parts: ProblemParts) -> Hddl
        ensures together { result ≡ together names self problem parts }
    {
        let BoundDomain {
            domain,
            types,
            objects,
            predicates,
            tasks,
            actions,
            methods,
            names: _,
        } = self;
        let (init, goal, top) = parts.behind_objects();
        Hddl {
            names,
            domain,
            problem,
            types,
            objects,
            predicates,
            tasks,
            actions,
            methods,
            top,
            init,
            goal,
        }
    }
}

/// The domain for which a domain of this language stands that was read, or its least fault, by offset and then by code: 10 to 17 or
/// 19 to 22. The table gets the word `object`.
pub fn bind_domain(
    alloc: Global,
    language: Language,
    names: &mut NameTable,
    d: RawDomain,
) -> Result<BoundDomain, BindError>
    requires section { IsSection d.types }
    ensures bound { IfOk result (spec.IsDomainBound language names.new d) }
    ensures refused { IfErr result (spec.IsDomainRefused language names.new d) }
    ensures keeps { Keeps names.old names.new }
    ensures words { OnOk result (names.new ≡ with_word names.old (codes "object")) }
{
    let bound = domain_of(alloc, language, names, &d);
    drop(d);
    bound
}

#[tactic(auto, using(gd_reader::proofs::Keeping::keeps_same, gd_reader::proofs::Keeping::keeps_word))]
fn domain_of(
    alloc: Global,
    language: Language,
    names: &mut NameTable,
    d: &RawDomain,
) -> Result<BoundDomain, BindError>
    requires section { IsSection d.now.types }
    ensures bound { IfOk result (spec.IsDomainBound language names.new d.now) }
    ensures refused { IfErr result (spec.IsDomainRefused language names.new d.now) }
    ensures keeps { Keeps names.old names.new }
    ensures words { OnOk result (names.new ≡ with_word names.old (codes "object")) }
{
    let object = names.intern(b"object")?;
    let mut faults = Faults::new();
    match noted_domain(alloc, language, object, d, &mut faults) {
        Ok(bound) => judged(bound, faults, 0),
        Err(_) => Err(BindError::Memory),
    }
}

/// The domain whose faults are noted. Where one is, the domain is not used.
fn noted_domain(
    alloc: Global,
    language: Language,
    object: Name,
    d: &RawDomain,
    faults: &mut Faults,
) -> Result<BoundDomain, Memory>
    requires section { IsSection d.now.types }
    ensures bound { IfOk result
        (spec.IsDomainNoted language object.number d.now faults.old.least faults.new.least) }
{
    let table = types_known(alloc, language, object, d, faults)?;
    let names = names_of(alloc, table, d, faults)?;
    let types = types_of(alloc, &names.known.types, &d.types)?;
    let schemas = schemas_of(alloc, &names.known, &names.callables, d, faults)?;
    Ok(schemas.together(d.name, types, names))
}

/// The types of the section and the unions of the domain.
fn types_known(
    alloc: Global,
    language: Language,
    object: Name,
    d: &RawDomain,
    faults: &mut Faults,
) -> Result<TypeTable, Memory>
    requires section { IsSection d.now.types }
    ensures kinds { IfOk result (spec.AreKindsOf object.number d.now) }
    ensures faults { OnOk result
        (spec.IsSectionNoted language object.number d.now faults.old.least faults.new.least) }
{
    let types = section_of(alloc, object, most_types(language), &d.types, faults)?;
    let mut table = TypeTable::new(alloc, types);
    let found = unions_of_domain(alloc, &table, d)?;
    table.add_unions(alloc, found)?;
    Ok(table)
}

/// So many types other than `object` a domain may have.
fn most_types(language: Language) -> u32
    ensures most { result ≡ most_types language }
{
    match language {
        Language::Hddl => MOST_TYPES,
        Language::Pddl => MOST_PDDL_TYPES,
    }
}
