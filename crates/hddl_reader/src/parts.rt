ghost use Rattle.std.specs.Prelude.{◌≡◌, ◌<◌, ◌≤◌, if◌then◌else◌, IfOk, IfSome};
ghost use Rattle.std.specs.Option.{option_map};
ghost use Rattle.htn_base.specs.Words.{folded};
ghost use Rattle.text_forms.specs.Placed.{parts_at};
ghost use Rattle.text_forms.specs.Tokens.{token_count};
ghost use Rattle.text_forms.specs.form_grammar.Words.{entry, is_keyword};
ghost use Rattle.gd_reader.specs.Added.{AddsOf};
ghost use Rattle.gd_reader.specs.Answers.{Gives, GivesWith};
ghost use Rattle.gd_reader.specs.Terms.{Keeps};
ghost use Rattle.gd_reader.specs.TypedLists.{listed};
ghost use Rattle.hddl_reader.specs.Parts.{network_table, part_of, no_parts, stands, part_due, part_at, part_read, parts, IsPut, IsMarked};

use crate::items::some_of;
use crate::networks::{RawCon, RawPair, RawSub};
use gd_reader::{
    Failure, Item, ListKind, RawAtom, RawEffect, RawFormula, RawParams, Stop, applied_of,
    effect_inside_of, end_due, inside_of, is_word, item_at, params_of,
};
use htn_base::{List, NameTable};
use std::alloc::Global;
use text_forms::sexpr_text::Sexprs;

/// The parts of a task, a method, an action or the initial network: each that is written.
pub struct RawParts {
    pub params: Option<RawParams>,
    pub task: Option<RawAtom>,
    pub pre: Option<RawFormula>,
    pub eff: Option<RawEffect>,
    pub subs: Option<List<RawSub>>,
    pub ordered: bool,
    pub pairs: Option<List<RawPair>>,
    pub constraints: Option<List<RawCon>>,
}

impl Drop for RawParts {
    fn drop(self) {
        let RawParts {
            params: _,
            task: _,
            pre: _,
            eff: _,
            subs: _,
            ordered: _,
            pairs: _,
            constraints: _,
        } = self;
    }
}

/// What has parts.
#[derive(Clone, Copy)]
pub enum Parted {
    Task,
    Method,
    Action,
    Network,
}

/// A part, by its keyword. Of a task, precondition and effect are empty.
#[derive(Clone, Copy)]
pub enum Part {
    Parameters,
    Task,
    Precondition,
    Effect,
    NoPrecondition,
    NoEffect,
    Subtasks,
    OrderedSubtasks,
    Ordering,
    Constraints,
}

// The part of a network by its keyword, in any case of its letters.
fn network_part(word: &[u8]) -> Option<Part>
    ensures { result ≡ entry network_table (folded word.now) }
{
    if is_word(word, b":subtasks") || is_word(word, b":tasks") {
        Some(Part::Subtasks)
    } else if is_word(word, b":ordered-subtasks") || is_word(word, b":ordered-tasks") {
        Some(Part::OrderedSubtasks)
    } else if is_word(word, b":ordering") || is_word(word, b":order") {
        Some(Part::Ordering)
    } else if is_word(word, b":constraints") {
        Some(Part::Constraints)
    } else {
        None
    }
}

/// The part by its keyword, in any case of its letters, or `None` for another word.
#[tactic(auto, unfolding(crate::specs::Parts::part_of))]
fn part_of(kind: Parted, word: &[u8]) -> Option<Part>
    ensures part { result ≡ part_of kind (folded word.now) }
{
    if is_word(word, b":parameters") {
        return Some(Part::Parameters);
    }
    match kind {
        Parted::Task => {
            if is_word(word, b":precondition") {
                Some(Part::NoPrecondition)
            } else if is_word(word, b":effect") {
                Some(Part::NoEffect)
            } else {
                None
            }
        }
        Parted::Method => {
            if is_word(word, b":task") {
                Some(Part::Task)
            } else if is_word(word, b":precondition") {
                Some(Part::Precondition)
            } else {
                network_part(word)
            }
        }
        Parted::Action => {
            if is_word(word, b":precondition") {
                Some(Part::Precondition)
            } else if is_word(word, b":effect") {
                Some(Part::Effect)
            } else {
                None
            }
        }
        Parted::Network => network_part(word),
    }
}

/// The code of a word that is no keyword here: 6 for a keyword, else 8.
pub(crate) fn unknown(word: &[u8]) -> u16
    ensures code { result ≡ (if is_keyword (folded word.now) then 6 else 8) }
{
    match word {
        [b':', ..] => 6,
        _ => 8,
    }
}

/// Puts what was read to its place, or passes its failure on.
pub(crate) fn put<T: Drop>(read: Result<T, Failure>, into: &mut Option<T>) -> Result<(), Failure>
    ensures put { IsPut read result into.new }
{
    *into = Some(read?);
    Ok(())
}

/// Marks what was read and isn't kept, or passes its failure on.
pub(crate) fn mark(read: Result<(), Failure>, into: &mut bool) -> Result<(), Failure>
    ensures marked { IsMarked read result into.new }
{
    read?;
    *into = true;
    Ok(())
}

/// A typed list from token `i` up to its end.
pub(crate) fn listed_of(
    alloc: Global,
    s: &Sexprs<'_>,
    i: u32,
    kind: ListKind,
    names: &mut NameTable,
) -> Result<RawParams, Failure>
    ensures keeps { Keeps names.old names.new }
    ensures adds { AddsOf s.now names.old names.new }
    ensures gives { GivesWith names.new result (listed kind names.old (parts_at s.now i)) }
{
    let (params, _) = params_of(alloc, s, i, kind, names)?;
    Ok(params)
}

impl RawParts {
    /// No parts yet.
    pub(crate) fn new() -> RawParts
        ensures empty { result ≡ no_parts }
    {
        RawParts {
            params: None,
            task: None,
            pre: None,
            eff: None,
            subs: None,
            ordered: false,
            pairs: None,
            constraints: None,
        }
    }

    // Whether a part stands already.
    #[tactic(auto, unfolding(crate::specs::Parts::stands))]
    fn stands(&self, part: Part) -> bool
        ensures { result ≡ stands self.now part }
    {
        match part {
            Part::Parameters => self.params.is_some(),
            Part::Task => self.task.is_some(),
            Part::Precondition | Part::NoPrecondition => self.pre.is_some(),
            Part::Effect | Part::NoEffect => self.eff.is_some(),
            Part::Subtasks | Part::OrderedSubtasks => self.subs.is_some(),
            Part::Ordering => self.pairs.is_some(),
            Part::Constraints => self.constraints.is_some(),
        }
    }

    // The part that is next, with the offset of its list, and the numbers of the token that comes first in it
    // and of the one behind it; or `None` at the end of the parts. A method has a task.
    #[tactic(auto, unfolding(crate::specs::Parts::part_due, crate::specs::Parts::may_end, crate::specs::Opened::opened_due))]
    fn part_due(
        &self,
        s: &Sexprs<'_>,
        i: u32,
        kind: Parted,
    ) -> Result<Option<(Part, u32, u32, u32)>, Failure>
        ensures gives { Gives (option_map (part_at s.now)) result
            (part_due kind self.now (parts_at s.now i)) }
        ensures later { IfOk result
            (λ o. IfSome o (λ x. (i < x.3) × (x.3 ≤ token_count s.now))) }
    {
        match item_at(s, i) {
            Item::End => Err(Failure::At(Stop::Ends)),
            Item::Close(at) => match kind {
                Parted::Method if self.task.is_none() => Err(Failure::At(Stop::Departs(8, at))),
                _ => Ok(None),
            },
            Item::List(at, _, _) => Err(Failure::At(Stop::Departs(8, at))),
            Item::Word(at, word) => match part_of(kind, word) {
                None => Err(Failure::At(Stop::Departs(unknown(word), at))),
                Some(part) if self.stands(part) => Err(Failure::At(Stop::Departs(7, at))),
                Some(part) => match item_at(s, i + 1) {
                    Item::End => Err(Failure::At(Stop::Ends)),
                    Item::Close(at) | Item::Word(at, _) => Err(Failure::At(Stop::Departs(8, at))),
                    Item::List(place, inside, behind) => Ok(Some((part, place, inside, behind))),
                },
            },
        }
    }

    // Puts a part with what its list says. The list's parenthesis stands at the offset `place`.
    #[tactic(auto, using(gd_reader::proofs::Keeping::keeps_same), unfolding(crate::specs::Parts::part_read))]
    fn read_part(
        &mut self,
        alloc: Global,
        s: &Sexprs<'_>,
        part: Part,
        place: u32,
        i: u32,
        names: &mut NameTable,
    ) -> Result<(), Failure>
        ensures keeps { Keeps names.old names.new }
        ensures adds { AddsOf s.now names.old names.new }
        ensures gives { Gives (λ _. (self.new, names.new)) result
            (part_read part self.old names.old place (parts_at s.now i)) }
    {
        match part {
            Part::Parameters => put(
                listed_of(alloc, s, i, ListKind::Parameters, names),
                &mut self.params,
            ),
            Part::Task => put(applied_of(alloc, s, i, names), &mut self.task),
            Part::Precondition => put(inside_of(alloc, s, i, names), &mut self.pre),
            Part::NoPrecondition => {
                end_due(s, i)?;
                put(Ok(RawFormula::And(List::new(alloc))), &mut self.pre)
            }
            Part::Effect => put(effect_inside_of(alloc, s, i, names), &mut self.eff),
            Part::NoEffect => {
                end_due(s, i)?;
                put(Ok(RawEffect::And(List::new(alloc))), &mut self.eff)
            }
            Part::Subtasks => put(some_of(alloc, s, place, i, names), &mut self.subs),
            Part::OrderedSubtasks => {
                self.ordered = true;
                put(some_of(alloc, s, place, i, names), &mut self.subs)
            }
            Part::Ordering => put(some_of(alloc, s, place, i, names), &mut self.pairs),
            Part::Constraints => put(some_of(alloc, s, place, i, names), &mut self.constraints),
        }
    }

    // Puts the parts from token `i` up to their end.
    #[tactic(auto, using(gd_reader::proofs::Keeping::keeps_same, gd_reader::proofs::Keeping::keeps_then))]
    fn read(
        &mut self,
        alloc: Global,
        s: &Sexprs<'_>,
        mut i: u32,
        kind: Parted,
        names: &mut NameTable,
    ) -> Result<(), Failure>
        ensures keeps { Keeps names.old names.new }
        ensures adds { AddsOf s.now names.old names.new }
        ensures gives { Gives (λ _. (self.new, names.new)) result
            (parts kind self.old names.old (parts_at s.now i)) }
    {
        while let Some((part, place, inside, behind)) = self.part_due(s, i, kind)? {
            self.read_part(alloc, s, part, place, inside, names)?;
            i = behind;
        }
        Ok(())
    }
}

/// The parts from token `i` up to the end of their list.
pub(crate) fn parts_of(
    alloc: Global,
    s: &Sexprs<'_>,
    i: u32,
    kind: Parted,
    names: &mut NameTable,
) -> Result<RawParts, Failure>
    ensures keeps { Keeps names.old names.new }
    ensures adds { AddsOf s.now names.old names.new }
    ensures gives { GivesWith names.new result (parts kind no_parts names.old (parts_at s.now i)) }
{
    let mut parts = RawParts::new();
    match parts.read(alloc, s, i, kind, names) {
        Ok(()) => Ok(parts),
        Err(failure) => {
            drop(parts);
            Err(failure)
        }
    }
}
