ghost use Rattle.std.specs.Prelude.{◌≡◌, IfOk, IfErr, OnErr};
ghost use Rattle.htn_base.specs.Words.{folded};
ghost use Rattle.text_forms.specs.Placed.{parts_at};
ghost use Rattle.gd_reader.specs.Added.{AddsOf, Says};
ghost use Rattle.gd_reader.specs.Answers.{Gives, GivesWith, word_due, list_due, end_due};
ghost use Rattle.gd_reader.specs.Shown.{parts_at_both};
ghost use Rattle.gd_reader.specs.Terms.{Keeps};
ghost use Rattle.hddl_reader.specs.declared.sections.Definition.TheVariants as definition;
ghost use Rattle.hddl_reader.specs.Definitions.{coded, key_due, definition_word, definition_inside, definition_read, refusal, Refuses, IsDomainRead, IsProblemRead};

use crate::networks::declared_of;
use crate::raw_sections::RawSections;
use crate::sections::{Definition, Language, RawDomain, RawProblem};
use gd_reader::{Failure, Item, Stop, is_word, item_at};
use htn_base::{Fault, Name, NameTable};
use std::alloc::Global;
use text_forms::sexpr_text::{ReadError, Sexprs};

impl Definition {
    // The word at the front of the title.
    fn word(self) -> &'static [u8]
        ensures { folded result.now ≡ definition_word self }
    {
        match self {
            Definition::Domain => b"domain",
            Definition::Problem => b"problem",
        }
    }
}

// This word, in any case of its letters, and the number of the token behind it.
#[tactic(auto, unfolding(gd_reader::specs::Answers::word_due))]
fn key_due(s: &Sexprs<'_>, i: u32, key: &[u8]) -> Result<u32, Failure>
    ensures gives { Gives (parts_at s.now) result (key_due (folded key.now) (parts_at s.now i)) }
{
    match item_at(s, i) {
        Item::End => Err(Failure::At(Stop::Ends)),
        Item::Word(_, word) if is_word(word, key) => Ok(i + 1),
        Item::Close(at) | Item::Word(at, _) | Item::List(at, _, _) => {
            Err(Failure::At(Stop::Departs(5, at)))
        }
    }
}

// The word that is due in a title, as its offset, its letters, and the number of the token behind it.
#[tactic(auto, unfolding(gd_reader::specs::Answers::word_due))]
fn title_word<'a>(s: &Sexprs<'a>, i: u32) -> Result<(u32, &'a [u8], u32), Failure>
    ensures gives { Gives (λ x. (x.0, folded x.1.now, parts_at s.now x.2)) result
        (coded 5 (word_due (parts_at s.now i))) }
    ensures said { IfOk result (λ x. Says s.now (folded x.1.now)) }
{
    match item_at(s, i) {
        Item::End => Err(Failure::At(Stop::Ends)),
        Item::Close(at) | Item::List(at, _, _) => Err(Failure::At(Stop::Departs(5, at))),
        Item::Word(at, word) => Ok((at, word, i + 1)),
    }
}

// The end of a title.
#[tactic(auto, unfolding(gd_reader::specs::Answers::end_due))]
fn title_end(s: &Sexprs<'_>, i: u32) -> Result<(), Failure>
    ensures gives { Gives (λ _. tt) result (coded 5 (end_due (parts_at s.now i))) }
{
    match item_at(s, i) {
        Item::End => Err(Failure::At(Stop::Ends)),
        Item::Close(_) => Ok(()),
        Item::Word(at, _) | Item::List(at, _, _) => Err(Failure::At(Stop::Departs(5, at))),
    }
}

// The list that is due behind `define`: the numbers of the token that comes first in it and of the one behind it.
#[tactic(auto, unfolding(gd_reader::specs::Answers::list_due))]
fn title_list(s: &Sexprs<'_>, i: u32) -> Result<(u32, u32), Failure>
    ensures gives { Gives (parts_at_both s.now) result
        (coded 5 (list_due (parts_at s.now i))) }
{
    match item_at(s, i) {
        Item::End => Err(Failure::At(Stop::Ends)),
        Item::Close(at) | Item::Word(at, _) => Err(Failure::At(Stop::Departs(5, at))),
        Item::List(_, inside, behind) => Ok((inside, behind)),
    }
}

// What stands in the parentheses of a definition: its title, which has its name, and its sections.
#[tactic(auto, using(gd_reader::proofs::Keeping::keeps_same, gd_reader::proofs::Keeping::keeps_then), unfolding(crate::specs::Definitions::definition_inside, crate::specs::Definitions::title))]
fn inside_of(
    alloc: Global,
    s: &Sexprs<'_>,
    i: u32,
    language: Language,
    definition: Definition,
    names: &mut NameTable,
) -> Result<(Name, RawSections), Failure>
    ensures keeps { Keeps names.old names.new }
    ensures adds { AddsOf s.now names.old names.new }
    ensures gives { GivesWith names.new result
        (definition_inside language definition names.old (parts_at s.now i)) }
{
    let i = key_due(s, i, b"define")?;
    let (inside, behind) = title_list(s, i)?;
    let i = key_due(s, inside, definition.word())?;
    let (at, word, i) = title_word(s, i)?;
    let name = declared_of(names, 5, at, word)?;
    title_end(s, i)?;
    let mut sections = RawSections::new(alloc);
    match sections.read(alloc, s, behind, language, definition, names) {
        Ok(()) => Ok((name.name, sections)),
        Err(failure) => {
            drop(sections);
            Err(failure)
        }
    }
}

// The whole text: one list, with its name and its sections, and nothing behind it.
#[tactic(auto, using(gd_reader::proofs::Keeping::keeps_same), unfolding(crate::specs::Definitions::definition_read))]
fn definition_of(
    alloc: Global,
    s: &Sexprs<'_>,
    language: Language,
    definition: Definition,
    names: &mut NameTable,
) -> Result<(Name, RawSections), Failure>
    ensures keeps { Keeps names.old names.new }
    ensures adds { AddsOf s.now names.old names.new }
    ensures gives { GivesWith names.new result
        (definition_read language definition names.old (parts_at s.now 0)) }
{
    match item_at(s, 0) {
        Item::End => Err(Failure::At(Stop::Ends)),
        Item::Close(at) => Err(Failure::At(Stop::Departs(8, at))),
        Item::Word(at, _) => Err(Failure::At(Stop::Departs(5, at))),
        Item::List(_, inside, behind) => {
            let (name, sections) = inside_of(alloc, s, inside, language, definition, names)?;
            match item_at(s, behind) {
                Item::End => Ok((name, sections)),
                Item::Close(at) | Item::Word(at, _) | Item::List(at, _, _) => {
                    drop(sections);
                    Err(Failure::At(Stop::Departs(8, at)))
                }
            }
        }
    }
}

// The fault of a failure, in the text with so many bytes. Tokens that end too early have code 5 there.
fn refusal(failure: Failure, file: u8, end: u32) -> ReadError
    ensures { result ≡ refusal file end failure }
{
    match failure {
        Failure::Memory => ReadError::Memory,
        Failure::At(Stop::Ends) => ReadError::Bad(Fault {
            code: 5,
            file,
            at: end,
        }),
        Failure::At(Stop::Departs(code, at)) => ReadError::Bad(Fault { code, file, at }),
    }
}

/// The domain that a text is. `file` is the place of the text among the command's inputs. `Bad` has the first
/// token with which the tokens no longer begin a domain: code 5 in the header, 6 at a keyword of another place, 7
/// at a repeated one, 9 where a reserved word is declared, 18 at a repeated parameter or variable, else 8. A text
/// without tokens has code 5 at its length. Where a definition ends, code 8 is for a missing `:task`.
/// On an error no word is added.
pub fn domain(
    alloc: Global,
    s: &Sexprs<'_>,
    file: u8,
    language: Language,
    names: &mut NameTable,
) -> Result<RawDomain, ReadError>
    ensures read { IfOk result (λ d. IsDomainRead language names.old s.now (d, names.new)) }
    ensures refused { IfErr result (Refuses language definition.Domain s.now file) }
    ensures unchanged { OnErr result (names.new ≡ names.old) }
    ensures keeps { Keeps names.old names.new }
    ensures adds { AddsOf s.now names.old names.new }
{
    let known = names.len();
    match definition_of(alloc, s, language, Definition::Domain, names) {
        Ok((name, sections)) => Ok(sections.into_domain(alloc, name)),
        Err(failure) => {
            names.truncate(known);
            Err(refusal(failure, file, s.text_len()))
        }
    }
}

/// The problem that a text is. The rest is as for a domain; code 8 at the last parenthesis is for a missing `:htn`.
pub fn problem(
    alloc: Global,
    s: &Sexprs<'_>,
    file: u8,
    language: Language,
    names: &mut NameTable,
) -> Result<RawProblem, ReadError>
    ensures read { IfOk result (λ p. IsProblemRead language names.old s.now (p, names.new)) }
    ensures refused { IfErr result (Refuses language definition.Problem s.now file) }
    ensures unchanged { OnErr result (names.new ≡ names.old) }
    ensures keeps { Keeps names.old names.new }
    ensures adds { AddsOf s.now names.old names.new }
{
    let known = names.len();
    match definition_of(alloc, s, language, Definition::Problem, names) {
        Ok((name, sections)) => Ok(sections.into_problem(alloc, name)),
        Err(failure) => {
            names.truncate(known);
            Err(refusal(failure, file, s.text_len()))
        }
    }
}
