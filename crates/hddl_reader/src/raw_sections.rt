ghost use Rattle.std.specs.Prelude.{◌≡◌};
ghost use Rattle.hddl_reader.specs.Definitions.{domain_of, problem_of};
ghost use Rattle.hddl_reader.specs.Sections.{no_sections, has_section, may_end};

use crate::parts::RawParts;
use crate::sections::{
    Definition, Language, RawAction, RawDomain, RawHead, RawMethod, RawProblem, Section,
};
use crate::wholes::{or_none, or_true, params_or_none};
use gd_reader::{RawFacts, RawFormula, RawParams};
use htn_base::{List, Name};
use std::alloc::Global;

/// The sections that are written. Requirements, functions, a metric and the domain's name are read and dropped.
pub struct RawSections {
    pub requirements: bool,
    pub types: Option<RawParams>,
    pub constants: Option<RawParams>,
    pub predicates: Option<List<RawHead>>,
    pub functions: bool,
    pub tasks: List<RawHead>,
    pub methods: List<RawMethod>,
    pub actions: List<RawAction>,
    pub domain: bool,
    pub objects: Option<RawParams>,
    pub network: Option<RawParts>,
    pub init: Option<RawFacts>,
    pub goal: Option<RawFormula>,
    pub metric: bool,
}

impl Drop for RawSections {
    fn drop(self) {
        let RawSections {
            requirements: _,
            types: _,
            constants: _,
            predicates: _,
            functions: _,
            tasks: _,
            methods: _,
            actions: _,
            domain: _,
            objects: _,
            network: _,
            init: _,
            goal: _,
            metric: _,
        } = self;
    }
}

impl RawSections {
    /// No sections yet.
    pub(crate) fn new(alloc: Global) -> RawSections
        ensures empty { result ≡ no_sections }
    {
        RawSections {
            requirements: false,
            types: None,
            constants: None,
            predicates: None,
            functions: false,
            tasks: List::new(alloc),
            methods: List::new(alloc),
            actions: List::new(alloc),
            domain: false,
            objects: None,
            network: None,
            init: None,
            goal: None,
            metric: false,
        }
    }

    /// Whether a section stands already that may stand once.
    #[tactic(auto, unfolding(crate::specs::Sections::has_section))]
    pub(crate) fn has(&self, section: Section) -> bool
        ensures { result ≡ has_section self.now section }
    {
        match section {
            Section::Requirements => self.requirements,
            Section::Types => self.types.is_some(),
            Section::Constants => self.constants.is_some(),
            Section::Predicates => self.predicates.is_some(),
            Section::Functions => self.functions,
            Section::Task | Section::Method | Section::Action => false,
            Section::Domain => self.domain,
            Section::Objects => self.objects.is_some(),
            Section::Network => self.network.is_some(),
            Section::Init => self.init.is_some(),
            Section::Goal => self.goal.is_some(),
            Section::Metric => self.metric,
        }
    }

    /// Whether the sections may end: a problem of HDDL has an initial network.
    #[tactic(auto, unfolding(crate::specs::Sections::may_end))]
    pub(crate) fn may_end(&self, language: Language, definition: Definition) -> bool
        ensures { result ≡ may_end language definition self.now }
    {
        match (language, definition) {
            (Language::Hddl, Definition::Problem) => self.network.is_some(),
            (Language::Pddl, Definition::Problem) | (_, Definition::Domain) => true,
        }
    }

    /// The domain of this name.
    pub(crate) fn into_domain(self, alloc: Global, name: Name) -> RawDomain
        ensures { result ≡ domain_of (name, self) }
    {
        let RawSections {
            requirements: _,
            types,
            constants,
            predicates,
            functions: _,
            tasks,
            methods,
            actions,
            domain: _,
            objects: _,
            network: _,
            init: _,
            goal: _,
            metric: _,
        } = self;
        RawDomain {
            name,
            types: params_or_none(alloc, types),
            constants: params_or_none(alloc, constants),
            predicates: or_none(alloc, predicates),
            tasks,
            methods,
            actions,
        }
    }

    /// The problem of this name.
    pub(crate) fn into_problem(self, alloc: Global, name: Name) -> RawProblem
        ensures { result ≡ problem_of (name, self) }
    {
        let RawSections {
            requirements: _,
            types: _,
            constants: _,
            predicates: _,
            functions: _,
            tasks: _,
            methods: _,
            actions: _,
            domain: _,
            objects,
            network,
            init,
            goal,
            metric: _,
        } = self;
        let (params, net) = network.unwrap_or(RawParts::new()).into_network(alloc);
        RawProblem {
            name,
            objects: params_or_none(alloc, objects),
            params,
            net,
            init: init.unwrap_or(RawFacts::new(alloc)),
            goal: or_true(alloc, goal),
        }
    }
}
