ghost use Rattle.text_forms.specs.Placed.{parts_at};
ghost use Rattle.gd_reader.specs.Added.{AddsOf};
ghost use Rattle.gd_reader.specs.Answers.{Gives, GivesWith};
ghost use Rattle.gd_reader.specs.Terms.{Keeps};
ghost use Rattle.hddl_reader.specs.declared.sections.Section.TheVariants as section;
ghost use Rattle.hddl_reader.specs.Sections.{named_parts, section_read, section_inside, sections};

use crate::facts::{dropped_name, facts_of, goal_of, words_of};
use crate::items::all_of;
use crate::networks::declared_of;
use crate::parts::{Parted, RawParts, listed_of, mark, parts_of, put, unknown};
use crate::raw_sections::RawSections;
use crate::sections::{Definition, Language, Section, section_of};
use gd_reader::{Failure, Item, ListKind, RawTerm, Stop, item_at, pass, word_due};
use htn_base::NameTable;
use std::alloc::Global;
use text_forms::sexpr_text::Sexprs;

// A declared name with its parts, from token `i` up to their end.
#[tactic(auto, using(gd_reader::proofs::Keeping::keeps_same, gd_reader::proofs::Keeping::keeps_then), unfolding(crate::specs::Sections::named_parts))]
fn named_parts(
    alloc: Global,
    s: &Sexprs<'_>,
    i: u32,
    kind: Parted,
    names: &mut NameTable,
) -> Result<(RawTerm, RawParts), Failure>
    ensures keeps { Keeps names.old names.new }
    ensures adds { AddsOf s.now names.old names.new }
    ensures gives { GivesWith names.new result (named_parts kind names.old (parts_at s.now i)) }
{
    let (at, word, i) = word_due(s, i)?;
    let name = declared_of(names, 8, at, word)?;
    let parts = parts_of(alloc, s, i, kind, names)?;
    Ok((name, parts))
}

// Each puts a section with what stands behind its keyword, from token `i` on.
impl RawSections {
    // One task more.
    #[tactic(auto, using(gd_reader::proofs::Keeping::keeps_same), unfolding(crate::specs::Sections::section_read))]
    fn read_task(
        &mut self,
        alloc: Global,
        s: &Sexprs<'_>,
        i: u32,
        names: &mut NameTable,
    ) -> Result<(), Failure>
        ensures keeps { Keeps names.old names.new }
        ensures adds { AddsOf s.now names.old names.new }
        ensures gives { Gives (λ _. (self.new, names.new)) result
            (section_read section.Task self.old names.old (parts_at s.now i)) }
    {
        let (name, parts) = named_parts(alloc, s, i, Parted::Task, names)?;
        self.tasks.push(parts.into_head(alloc, name))?;
        Ok(())
    }

    // One method more.
    #[tactic(auto, using(gd_reader::proofs::Keeping::keeps_same), unfolding(crate::specs::Sections::section_read))]
    fn read_method(
        &mut self,
        alloc: Global,
        s: &Sexprs<'_>,
        i: u32,
        names: &mut NameTable,
    ) -> Result<(), Failure>
        ensures keeps { Keeps names.old names.new }
        ensures adds { AddsOf s.now names.old names.new }
        ensures gives { Gives (λ _. (self.new, names.new)) result
            (section_read section.Method self.old names.old (parts_at s.now i)) }
    {
        let (name, parts) = named_parts(alloc, s, i, Parted::Method, names)?;
        if let Some(method) = parts.into_method(alloc, name) {
            self.methods.push(method)?;
        }
        Ok(())
    }

    // One action more.
    #[tactic(auto, using(gd_reader::proofs::Keeping::keeps_same), unfolding(crate::specs::Sections::section_read))]
    fn read_action(
        &mut self,
        alloc: Global,
        s: &Sexprs<'_>,
        i: u32,
        names: &mut NameTable,
    ) -> Result<(), Failure>
        ensures keeps { Keeps names.old names.new }
        ensures adds { AddsOf s.now names.old names.new }
        ensures gives { Gives (λ _. (self.new, names.new)) result
            (section_read section.Action self.old names.old (parts_at s.now i)) }
    {
        let (name, parts) = named_parts(alloc, s, i, Parted::Action, names)?;
        self.actions.push(parts.into_action(alloc, name))?;
        Ok(())
    }

    // A section by its keyword.
    #[tactic(auto, using(gd_reader::proofs::Keeping::keeps_same), unfolding(crate::specs::Sections::section_read))]
    fn read_section(
        &mut self,
        alloc: Global,
        s: &Sexprs<'_>,
        section: Section,
        i: u32,
        names: &mut NameTable,
    ) -> Result<(), Failure>
        ensures keeps { Keeps names.old names.new }
        ensures adds { AddsOf s.now names.old names.new }
        ensures gives { Gives (λ _. (self.new, names.new)) result
            (section_read section self.old names.old (parts_at s.now i)) }
    {
        match section {
            Section::Requirements => mark(words_of(s, i), &mut self.requirements),
            Section::Functions => mark(pass(s, i), &mut self.functions),
            Section::Domain => mark(dropped_name(s, i), &mut self.domain),
            Section::Metric => mark(pass(s, i), &mut self.metric),
            Section::Types => put(
                listed_of(alloc, s, i, ListKind::Types, names),
                &mut self.types,
            ),
            Section::Constants => put(
                listed_of(alloc, s, i, ListKind::Objects, names),
                &mut self.constants,
            ),
            Section::Predicates => put(all_of(alloc, s, i, names), &mut self.predicates),
            Section::Task => self.read_task(alloc, s, i, names),
            Section::Method => self.read_method(alloc, s, i, names),
            Section::Action => self.read_action(alloc, s, i, names),
            Section::Objects => put(
                listed_of(alloc, s, i, ListKind::Objects, names),
                &mut self.objects,
            ),
            Section::Network => put(
                parts_of(alloc, s, i, Parted::Network, names),
                &mut self.network,
            ),
            Section::Init => put(facts_of(alloc, s, i, names), &mut self.init),
            Section::Goal => put(goal_of(alloc, s, i, names), &mut self.goal),
        }
    }

    // What stands in the parentheses of a section.
    #[tactic(auto, using(gd_reader::proofs::Keeping::keeps_same), unfolding(crate::specs::Sections::section_inside))]
    fn read_inside(
        &mut self,
        alloc: Global,
        s: &Sexprs<'_>,
        i: u32,
        language: Language,
        definition: Definition,
        names: &mut NameTable,
    ) -> Result<(), Failure>
        ensures keeps { Keeps names.old names.new }
        ensures adds { AddsOf s.now names.old names.new }
        ensures gives { Gives (λ _. (self.new, names.new)) result
            (section_inside language definition self.old names.old (parts_at s.now i)) }
    {
        let (at, word, i) = word_due(s, i)?;
        match section_of(language, definition, word) {
            None => Err(Failure::At(Stop::Departs(unknown(word), at))),
            Some(section) if self.has(section) => Err(Failure::At(Stop::Departs(7, at))),
            Some(section) => self.read_section(alloc, s, section, i, names),
        }
    }

    /// The sections from token `i` up to the end of their list.
    #[tactic(auto, unfolding(crate::specs::Sections::sections), using(gd_reader::proofs::Keeping::keeps_same, gd_reader::proofs::Keeping::keeps_then))]
    pub(crate) fn read(
        &mut self,
        alloc: Global,
        s: &Sexprs<'_>,
        mut i: u32,
        language: Language,
        definition: Definition,
        names: &mut NameTable,
    ) -> Result<(), Failure>
        ensures keeps { Keeps names.old names.new }
        ensures adds { AddsOf s.now names.old names.new }
        ensures gives { Gives (λ _. (self.new, names.new)) result
            (sections language definition self.old names.old (parts_at s.now i)) }
    {
        loop {
            match item_at(s, i) {
                Item::End => return Err(Failure::At(Stop::Ends)),
                Item::Close(_) if self.may_end(language, definition) => return Ok(()),
                Item::Close(at) | Item::Word(at, _) => {
                    return Err(Failure::At(Stop::Departs(8, at)));
                }
                Item::List(_, inside, behind) => {
                    self.read_inside(alloc, s, inside, language, definition, names)?;
                    i = behind;
                }
            }
        }
    }
}
