ghost use Rattle.std.specs.Prelude.{◌≡◌};
ghost use Rattle.htn_base.specs.Words.{folded};
ghost use Rattle.text_forms.specs.form_grammar.Words.{entry};
ghost use Rattle.hddl_reader.specs.declared.sections.Language.TheVariants as language;
ghost use Rattle.hddl_reader.specs.Sections.{plain_table, hierarchy_table, section_of, predicate_headed};

use crate::items::Item;
use crate::networks::{RawNet, declared_of};
use gd_reader::{
    Failure, ListKind, RawAtom, RawEffect, RawFacts, RawFormula, RawParams, RawTerm, is_word,
    params_of,
};
use htn_base::{List, Name, NameTable};
use std::alloc::Global;
use text_forms::sexpr_text::Sexprs;

/// The language of a text: PDDL is HDDL without `:task`, `:method` and `:htn`.
#[derive(Clone, Copy)]
pub enum Language {
    Hddl,
    Pddl,
}

/// What a text defines.
#[derive(Clone, Copy)]
pub enum Definition {
    Domain,
    Problem,
}

/// A declared name with its parameters: a predicate, a task, or the front of a method or an action.
pub struct RawHead {
    pub name: RawTerm,
    pub params: RawParams,
}

impl Drop for RawHead {
    fn drop(self) {
        let RawHead { name: _, params: _ } = self;
    }
}

pub struct RawMethod {
    pub head: RawHead,
    pub task: RawAtom,
    pub pre: RawFormula,
    pub net: RawNet,
}

impl Drop for RawMethod {
    fn drop(self) {
        let RawMethod {
            head: _,
            task: _,
            pre: _,
            net: _,
        } = self;
    }
}

pub struct RawAction {
    pub head: RawHead,
    pub pre: RawFormula,
    pub eff: RawEffect,
}

impl Drop for RawAction {
    fn drop(self) {
        let RawAction {
            head: _,
            pre: _,
            eff: _,
        } = self;
    }
}

/// A section, by its keyword.
#[derive(Clone, Copy)]
pub enum Section {
    Requirements,
    Types,
    Constants,
    Predicates,
    Functions,
    Task,
    Method,
    Action,
    Domain,
    Objects,
    Network,
    Init,
    Goal,
    Metric,
}

/// A domain: each list in text order. Missing sections are empty. The types of types are their parents.
pub struct RawDomain {
    pub name: Name,
    pub types: RawParams,
    pub constants: RawParams,
    pub predicates: List<RawHead>,
    pub tasks: List<RawHead>,
    pub methods: List<RawMethod>,
    pub actions: List<RawAction>,
}

impl Drop for RawDomain {
    fn drop(self) {
        let RawDomain {
            name: _,
            types: _,
            constants: _,
            predicates: _,
            tasks: _,
            methods: _,
            actions: _,
        } = self;
    }
}

/// A problem. `params` and `net` are those of its initial network.
pub struct RawProblem {
    pub name: Name,
    pub objects: RawParams,
    pub params: RawParams,
    pub net: RawNet,
    pub init: RawFacts,
    pub goal: RawFormula,
}

impl Drop for RawProblem {
    fn drop(self) {
        let RawProblem {
            name: _,
            objects: _,
            params: _,
            net: _,
            init: _,
            goal: _,
        } = self;
    }
}

/// A predicate.
impl Item for RawHead {
    ghost headed = { predicate_headed };

    #[tactic(auto, using(gd_reader::proofs::Keeping::keeps_same, gd_reader::proofs::Keeping::keeps_then), unfolding(crate::specs::Sections::predicate_headed))]
    fn headed_of(
        alloc: Global,
        s: &Sexprs<'_>,
        _: u32,
        at: u32,
        word: &[u8],
        i: u32,
        names: &mut NameTable,
    ) -> Result<RawHead, Failure> {
        let name = declared_of(names, 8, at, word)?;
        let (params, _) = params_of(alloc, s, i, ListKind::Predicate, names)?;
        Ok(RawHead { name, params })
    }
}

// The section of either language by its keyword, in any case of its letters.
fn plain_section(definition: Definition, word: &[u8]) -> Option<Section>
    ensures { result ≡ entry (plain_table definition) (folded word.now) }
{
    match definition {
        Definition::Domain => {
            if is_word(word, b":requirements") {
                Some(Section::Requirements)
            } else if is_word(word, b":types") {
                Some(Section::Types)
            } else if is_word(word, b":constants") {
                Some(Section::Constants)
            } else if is_word(word, b":predicates") {
                Some(Section::Predicates)
            } else if is_word(word, b":functions") {
                Some(Section::Functions)
            } else if is_word(word, b":action") {
                Some(Section::Action)
            } else {
                None
            }
        }
        Definition::Problem => {
            if is_word(word, b":domain") {
                Some(Section::Domain)
            } else if is_word(word, b":requirements") {
                Some(Section::Requirements)
            } else if is_word(word, b":objects") {
                Some(Section::Objects)
            } else if is_word(word, b":init") {
                Some(Section::Init)
            } else if is_word(word, b":goal") {
                Some(Section::Goal)
            } else if is_word(word, b":metric") {
                Some(Section::Metric)
            } else {
                None
            }
        }
    }
}

// The section of HDDL alone by its keyword.
fn hierarchy_section(definition: Definition, word: &[u8]) -> Option<Section>
    ensures { result ≡ entry (hierarchy_table language.Hddl definition) (folded word.now) }
{
    match definition {
        Definition::Domain => {
            if is_word(word, b":task") {
                Some(Section::Task)
            } else if is_word(word, b":method") {
                Some(Section::Method)
            } else {
                None
            }
        }
        Definition::Problem => {
            if is_word(word, b":htn") {
                Some(Section::Network)
            } else {
                None
            }
        }
    }
}

/// The section by its keyword, in any case of its letters, or `None` for another word.
#[tactic(auto, using(crate::proofs::SectionSteps::section_is))]
pub(crate) fn section_of(language: Language, definition: Definition, word: &[u8]) -> Option<Section>
    ensures section { result ≡ section_of language definition (folded word.now) }
{
    match (plain_section(definition, word), language) {
        (Some(section), _) => Some(section),
        (None, Language::Hddl) => hierarchy_section(definition, word),
        (None, Language::Pddl) => None,
    }
}
