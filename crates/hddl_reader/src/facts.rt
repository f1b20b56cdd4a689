ghost use Rattle.std.specs.Prelude.{◌≡◌, ◌<◌, ◌≤◌, IfOk};
ghost use Rattle.std.specs.Option.{option_map};
ghost use Rattle.text_forms.specs.Placed.{parts_at};
ghost use Rattle.text_forms.specs.Tokens.{token_count};
ghost use Rattle.text_forms.specs.sexpr_text.Positions.{IsPosition};
ghost use Rattle.gd_reader.specs.Added.{AddsOf};
ghost use Rattle.gd_reader.specs.Answers.{Gives, GivesWith, with_front};
ghost use Rattle.gd_reader.specs.ShownFrom.{behind_at};
ghost use Rattle.gd_reader.specs.Terms.{Keeps};
ghost use Rattle.hddl_reader.specs.Sections.{words, dropped_name, used_names, applied_to, fact, facts, goal};

use gd_reader::{
    Failure, Item, RawFacts, RawFormula, RawTerm, Sort, Stop, WordOrEnd, end_due, end_due_from,
    inside_of, is_word, item_at, list_due, marked_used_of, opened_or_end_from, pass, sort_of,
    word_due, word_due_from, word_or_end_from,
};
use htn_base::{Marks, NameTable};
use std::alloc::Global;
use text_forms::sexpr_text::{Position, Sexprs};

/// Passes over words from token `i` up to the end of their list.
#[tactic(auto, unfolding(crate::specs::Sections::words))]
pub(crate) fn words_of(s: &Sexprs<'_>, mut i: u32) -> Result<(), Failure>
    ensures gives { Gives (λ _. tt) result (words (parts_at s.now i)) }
{
    loop {
        match item_at(s, i) {
            Item::End => return Err(Failure::At(Stop::Ends)),
            Item::Close(_) => return Ok(()),
            Item::Word(_, _) => i += 1,
            Item::List(at, _, _) => return Err(Failure::At(Stop::Departs(8, at))),
        }
    }
}

/// A name that is dropped, and the end of its list.
#[tactic(auto, unfolding(crate::specs::Sections::dropped_name))]
pub(crate) fn dropped_name(s: &Sexprs<'_>, i: u32) -> Result<(), Failure>
    ensures gives { Gives (λ _. tt) result (dropped_name (parts_at s.now i)) }
{
    let (at, word, behind) = word_due(s, i)?;
    match sort_of(word) {
        Sort::Name => end_due(s, behind),
        Sort::Variable | Sort::Other => Err(Failure::At(Stop::Departs(8, at))),
    }
}

// Names that are used, from a position up to the end of their list, and the position behind this list. They come in
// the place of those that `used` had.
#[tactic(auto, using(gd_reader::proofs::Keeping::keeps_same, gd_reader::proofs::Keeping::keeps_then))]
fn used_names_of(
    s: &Sexprs<'_>,
    mut p: Position,
    names: &mut NameTable,
    marks: &mut Marks,
    used: &mut Vec<RawTerm>,
) -> Result<Position, Failure>
    requires position { IsPosition s.now p }
    ensures keeps { Keeps names.old names.new }
    ensures adds { AddsOf s.now names.old names.new }
    ensures gives { Gives (λ _. (used.new.items, names.new)) result
        (used_names names.old (parts_at s.now p.token)) }
    ensures position { IfOk result (IsPosition s.now) }
    ensures later { IfOk result (λ x. (p.token < x.token) × (x.token ≤ token_count s.now)) }
    ensures behind { IfOk result (λ x. parts_at s.now x.token ≡ behind_at s.now p.token) }
{
    used.clear();
    loop {
        match word_or_end_from(s, p)? {
            WordOrEnd::Word(at, word, next) => {
                let name = marked_used_of(names, at, word, marks)?;
                used.push(name)?;
                p = next;
            }
            WordOrEnd::End(behind) => return Ok(behind),
        }
    }
}

// What stands in the parentheses of an element of `:init`: an atom, as its head, and its names in `args`; or an
// assignment, a list and a word behind its sign, of which nothing is kept. Reading it ends at the position behind it.
#[tactic(auto, unfolding(crate::specs::Sections::fact, crate::specs::Sections::assignment), using(gd_reader::proofs::Keeping::keeps_same, gd_reader::proofs::Keeping::keeps_then))]
fn fact_of(
    s: &Sexprs<'_>,
    p: Position,
    names: &mut NameTable,
    marks: &mut Marks,
    args: &mut Vec<RawTerm>,
) -> Result<(Option<RawTerm>, Position), Failure>
    requires position { IsPosition s.now p }
    ensures keeps { Keeps names.old names.new }
    ensures adds { AddsOf s.now names.old names.new }
    ensures gives { Gives (λ x. (option_map (applied_to args.new.items) x.0, names.new)) result
        (fact names.old (parts_at s.now p.token)) }
    ensures position { IfOk result (λ x. IsPosition s.now x.1) }
    ensures later { IfOk result (λ x. (p.token < x.1.token) × (x.1.token ≤ token_count s.now)) }
    ensures behind { IfOk result (λ x. parts_at s.now x.1.token ≡ behind_at s.now p.token) }
{
    let (at, word, next) = word_due_from(s, p)?;
    if is_word(word, b"=") {
        let (inside, behind) = list_due(s, next.token)?;
        pass(s, inside)?;
        let (_, _, next) = word_due_from(s, s.position(behind))?;
        let end = end_due_from(s, next)?;
        Ok((None, end))
    } else {
        let head = marked_used_of(names, at, word, marks)?;
        let behind = used_names_of(s, next, names, marks, args)?;
        Ok((Some(head), behind))
    }
}

// The fewest tokens of an atom: its two parentheses and its head.
const FEWEST_TOKENS: usize = 3;

// Puts the atoms of `:init` from a position up to the end of the section, by memory that is kept from fact to fact.
// They are read by positions, so that the end of a fact is where reading it ends, and only an assignment by the numbers
// of its tokens.
#[tactic(auto, using(gd_reader::proofs::Keeping::keeps_same, gd_reader::proofs::Keeping::keeps_then))]
fn put_each(
    s: &Sexprs<'_>,
    mut p: Position,
    names: &mut NameTable,
    marks: &mut Marks,
    args: &mut Vec<RawTerm>,
    into: &mut RawFacts,
) -> Result<(), Failure>
    requires position { IsPosition s.now p }
    ensures keeps { Keeps names.old names.new }
    ensures adds { AddsOf s.now names.old names.new }
    ensures gives { Gives (λ _. (into.new, names.new)) result
        (with_front into.old (facts names.old (parts_at s.now p.token))) }
{
    while let Some(inside) = opened_or_end_from(s, p)? {
        let (head, behind) = fact_of(s, inside, names, marks, args)?;
        if let Some(head) = head {
            into.push(head, args.as_slice())?;
        }
        p = behind;
    }
    Ok(())
}

/// The atoms of `:init` from token `i` up to the end of the section.
#[tactic(auto, using(gd_reader::proofs::Keeping::keeps_same, gd_reader::proofs::Steps::front_none))]
pub(crate) fn facts_of(
    alloc: Global,
    s: &Sexprs<'_>,
    i: u32,
    names: &mut NameTable,
) -> Result<RawFacts, Failure>
    ensures keeps { Keeps names.old names.new }
    ensures adds { AddsOf s.now names.old names.new }
    ensures gives { GivesWith names.new result (facts names.old (parts_at s.now i)) }
{
    // Room for as many facts as the text may still have. Memory that is never touched costs nothing.
    let tokens = s.len().saturating_sub(i) as usize;
    let mut facts = RawFacts::with_room(alloc, tokens / FEWEST_TOKENS, tokens)?;
    let mut marks = Marks::new(alloc)?;
    let mut args = Vec::new(alloc);
    let read = put_each(s, s.position(i), names, &mut marks, &mut args, &mut facts);
    drop(args);
    drop(marks);
    match read {
        Ok(()) => Ok(facts),
        Err(failure) => {
            drop(facts);
            Err(failure)
        }
    }
}

/// A goal in its parentheses, and the end of its section.
#[tactic(auto, unfolding(crate::specs::Sections::goal), using(gd_reader::proofs::Keeping::keeps_same))]
pub(crate) fn goal_of(
    alloc: Global,
    s: &Sexprs<'_>,
    i: u32,
    names: &mut NameTable,
) -> Result<RawFormula, Failure>
    ensures keeps { Keeps names.old names.new }
    ensures adds { AddsOf s.now names.old names.new }
    ensures gives { GivesWith names.new result (goal names.old (parts_at s.now i)) }
{
    let (inside, behind) = list_due(s, i)?;
    let formula = inside_of(alloc, s, inside, names)?;
    match end_due(s, behind) {
        Ok(()) => Ok(formula),
        Err(failure) => {
            drop(formula);
            Err(failure)
        }
    }
}
