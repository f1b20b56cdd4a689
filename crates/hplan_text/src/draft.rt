ghost use Rattle.std.specs.Prelude.{◌≡◌, ◌∷◌, [], ◌++◌, map, true, IfOk, OnOk};
ghost use Rattle.std.specs.List.{list_all, cons_option};
ghost use Rattle.hplan_text.specs.Lines.{some_line};
ghost use Rattle.hplan_text.specs.Rows as spec;
ghost use Rattle.hplan_text.specs.Scanning.{as_said, as_line, is_id_word, names_of, mentions_of};
ghost use Rattle.hplan_text.specs.Drafts.{IsTask, IsDraft, Adds, AddsRowAt, AddsPrimitive, AddsNode};

use crate::least::{Found, least};
use crate::lines::Word;
use crate::mention::Mention;
use crate::rows::{Row, read_row};
use crate::values::{HLine, HNode, HPlan};
use crate::words::{id_of, in_lower_case};
use htn_base::{List, Memory, Text};
use std::alloc::Global;

/// The code of a line without a form.
const BAD_LINE: u16 = 31;

/// What was read of lines: their plan, the ids in front of them and in lists, in the text's order, and their least faults.
pub(crate) struct Draft {
    pub(crate) plan: HPlan,
    pub(crate) own: Vec<Mention>,
    pub(crate) listed: Vec<Mention>,
    pub(crate) rooted: bool,
    pub(crate) bad: Option<Found>,
    pub(crate) second: Option<Found>,
}

impl Drop for Draft {
    fn drop(self) {
        let Draft {
            plan,
            own: _,
            listed: _,
            rooted: _,
            bad: _,
            second: _,
        } = self;
        drop(plan);
    }
}

// Some words in lower case.
fn in_lower_cases(alloc: Global, words: &[Word<'_>]) -> Result<List<Text>, Memory>
    ensures { IfOk result (λ texts. texts ≡ names_of words.now) }
{
    let mut texts = List::with_room(alloc, words.len())?;
    for word in words {
        texts.put(in_lower_case(alloc, word.bytes))?;
    }
    Ok(texts)
}

// The task of an id and of names, the first of which is its own.
fn task(alloc: Global, id: u64, names: &[Word<'_>]) -> Result<HLine, Memory>
    ensures { IfOk result (IsTask id (names_of names.now)) }
{
    match names {
        [] => Ok(HLine {
            id,
            name: Text::new(alloc),
            args: List::new(alloc),
        }),
        [name, args @ ..] => {
            let args = in_lower_cases(alloc, args)?;
            let name = in_lower_case(alloc, name.bytes)?;
            Ok(HLine { id, name, args })
        }
    }
}

// The ids that words are. They are put behind others with their places.
fn list_ids(
    alloc: Global,
    words: &[Word<'_>],
    listed: &mut Vec<Mention>,
) -> Result<List<u64>, Memory>
    requires ids { list_all is_id_word words.now ≡ true }
    ensures ids { IfOk result (λ ids. ids ≡ map spec.number (mentions_of words.now)) }
    ensures listed { OnOk result (listed.new.items ≡ listed.old.items ++ mentions_of words.now) }
{
    let mut ids = List::with_room(alloc, words.len())?;
    for word in words {
        if let Some(id) = id_of(word.bytes) {
            listed.push(Mention { id, at: word.at })?;
            ids.push(id)?;
        }
    }
    Ok(ids)
}

impl Draft {
    /// The draft of no lines.
    pub(crate) fn new(alloc: Global) -> Draft
        ensures none { IsDraft [] result }
    {
        let plan = HPlan {
            primitives: List::new(alloc),
            root: List::new(alloc),
            nodes: List::new(alloc),
        };
        Draft {
            plan,
            own: Vec::new(alloc),
            listed: Vec::new(alloc),
            rooted: false,
            bad: None,
            second: None,
        }
    }

    /// Its plan.
    pub(crate) fn into_plan(self) -> HPlan
        ensures plan { result ≡ self.plan }
    {
        let Draft {
            plan,
            own: _,
            listed: _,
            rooted: _,
            bad: _,
            second: _,
        } = self;
        plan
    }

    // A line without a form.
    fn add_bad(&mut self, at: u32)
        ensures added { AddsRowAt at spec.bad self.old self.new }
    {
        self.bad = least(self.bad, Some(Found { at, code: BAD_LINE }));
    }

    // A root line.
    fn add_root(&mut self, alloc: Global, at: u32, ids: &[Word<'_>]) -> Result<(), Memory>
        requires ids { list_all is_id_word ids.now ≡ true }
        ensures added { OnOk result (AddsRowAt at (spec.top (mentions_of ids.now)) self.old self.new) }
    {
        let root = list_ids(alloc, ids, &mut self.listed)?;
        if self.rooted {
            self.second = least(self.second, Some(Found { at, code: BAD_LINE }));
            drop(root);
        } else {
            self.plan.root = root;
            self.rooted = true;
        }
        Ok(())
    }

    // A primitive task.
    fn add_primitive(
        &mut self,
        alloc: Global,
        own: Mention,
        names: &[Word<'_>],
    ) -> Result<(), Memory>
        ensures added { OnOk result (AddsPrimitive own names.now self.old self.new) }
    {
        let line = task(alloc, own.id, names)?;
        self.plan.primitives.push(line)?;
        self.own.push(own)?;
        Ok(())
    }

    // A task that is decomposed.
    fn add_node(
        &mut self,
        alloc: Global,
        own: Mention,
        names: &[Word<'_>],
        method: Word<'_>,
        ids: &[Word<'_>],
    ) -> Result<(), Memory>
        requires ids { list_all is_id_word ids.now ≡ true }
        ensures added { OnOk result (AddsNode own names.now method.entry ids.now self.old self.new) }
    {
        let ids = list_ids(alloc, ids, &mut self.listed)?;
        let method = in_lower_case(alloc, method.bytes)?;
        let line = task(alloc, own.id, names)?;
        self.plan.nodes.push(HNode { line, method, ids })?;
        self.own.push(own)?;
        Ok(())
    }

    /// Adds a line, by its first word and those behind it.
    pub(crate) fn add(
        &mut self,
        alloc: Global,
        first: Word<'_>,
        more: &[Word<'_>],
    ) -> Result<(), Memory>
        ensures added { OnOk result (Adds (as_line first.entry more.now ∷ []) self.old self.new) }
    {
        match read_row(first, more) {
            Row::Bad => {
                self.add_bad(first.at);
                Ok(())
            }
            Row::Root(ids) => self.add_root(alloc, first.at, ids),
            Row::Primitive(own, names) => self.add_primitive(alloc, own, names),
            Row::Decomposed(own, names, method, ids) => {
                self.add_node(alloc, own, names, method, ids)
            }
        }
    }

    /// Adds a line by its words, if it has any.
    pub(crate) fn add_line(&mut self, alloc: Global, words: &[Word<'_>]) -> Result<(), Memory>
        ensures added { OnOk result (Adds (cons_option (some_line (map as_said words.now)) []) self.old self.new) }
    {
        match words {
            [] => Ok(()),
            [first, more @ ..] => self.add(alloc, *first, more),
        }
    }
}
