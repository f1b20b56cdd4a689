ghost use Rattle.std.specs.Prelude.{List as Items, IfOk};
ghost use Rattle.htn_base.specs.declared.name.Name.{Name as name};
ghost use Rattle.plan_model.specs.declared.values.Compiled.{Compiled as compiled};
ghost use Rattle.hplan_text.specs.Printable.{IsPrintableWord, IsPrintableLine};
ghost use Rattle.plan_model.specs.plan_meaning.Network.{action, task};
ghost use Rattle.plan_texts.specs.SoundlyCompiled.{IsSoundlyCompiled};
ghost use Rattle.numbered_lines.specs.Numbered.{AreSaid, IsTheMethod};
ghost use Rattle.numbered_lines.specs.WordNumbers as spec;

use crate::lines::Said;
use hplan_text::HLine;
use htn_base::{List, Memory, NameTable, Text};
use plan_model::Compiled;
use problem_index::{Places, Words};
use std::alloc::Global;

/// The numbers of actions, tasks, methods and objects by their words. `methods`: those beside the top one, each by its place among
/// these.
pub(crate) struct WordNumbers {
    words: Words,
    actions: Places,
    tasks: Places,
    methods: Places,
    objects: Places,
}

impl Drop for WordNumbers {
    fn drop(self) {
        let WordNumbers {
            words: _,
            actions: _,
            tasks: _,
            methods: _,
            objects: _,
        } = self;
    }
}

impl WordNumbers {
    /// The numbers of what has a word in the problem.
    pub(crate) fn of(alloc: Global, c: &Compiled) -> Result<WordNumbers, Memory>
        requires soundly { IsSoundlyCompiled c.now }
        ensures numbers { IfOk result (spec.AreNumbersOf c.now) }
    {
        let hddl = &c.hddl;
        let count = hddl.names.len();
        let actions = Places::of(alloc, count, hddl.actions.as_slice())?;
        let tasks = Places::of(alloc, count, hddl.tasks.as_slice())?;
        let methods = Places::of(alloc, count, &c.methods.as_slice()[1..])?;
        let objects = Places::of(alloc, count, hddl.objects.as_slice())?;
        let table = NameTable::of(alloc, &hddl.names)?;
        let words = Words::of(alloc, table)?;
        Ok(WordNumbers {
            words,
            actions,
            tasks,
            methods,
            objects,
        })
    }

    /// The action of the line with its objects.
    pub(crate) fn action(&self, alloc: Global, line: &HLine) -> Result<Option<Said>, Memory>
        requires printable { IsPrintableLine line.now }
        ensures action { IfOk result (λ found. (c : compiled) → spec.AreNumbersOf c self.now → AreSaid c action line.now found) }
    {
        self.thing(alloc, &self.actions, line)
    }

    /// The task of the line with its objects.
    pub(crate) fn task(&self, alloc: Global, line: &HLine) -> Result<Option<Said>, Memory>
        requires printable { IsPrintableLine line.now }
        ensures task { IfOk result (λ found. (c : compiled) → spec.AreNumbersOf c self.now → AreSaid c task line.now found) }
    {
        self.thing(alloc, &self.tasks, line)
    }

    /// The number of the method that has the word.
    pub(crate) fn method(&self, c: &Compiled, word: &Text) -> Option<u32>
        requires soundly { IsSoundlyCompiled c.now }
        requires numbers { spec.AreNumbersOf c.now self.now }
        requires printable { IsPrintableWord word.now }
        ensures method { IsTheMethod c.now word.now result }
    {
        let place = self.methods.find(&self.words, word.as_slice())?;
        Some(place + 1)
    }

    // What the line names, of those that stand at these places, with its objects.
    fn thing(&self, alloc: Global, places: &Places, line: &HLine) -> Result<Option<Said>, Memory>
        ensures { IfOk result (λ found. (c : compiled) (names : Items name) → spec.AreNumbersOf c self.now
            → spec.StandAt c names places.now → spec.IsTheThing c names line.now found) }
    {
        let Some(number) = places.find(&self.words, line.name.as_slice()) else {
            return Ok(None);
        };
        match self.objects(alloc, &line.args)? {
            Some(objects) => Ok(Some(Said { number, objects })),
            None => Ok(None),
        }
    }

    // The objects that have the words. `None` where there is none for one of them.
    fn objects(&self, alloc: Global, words: &List<Text>) -> Result<Option<List<u32>>, Memory>
        ensures { IfOk result (λ found. (c : compiled) → spec.AreNumbersOf c self.now → spec.AreTheObjects c words.now found) }
    {
        let mut objects = List::with_room(alloc, words.len())?;
        for word in words.as_slice() {
            match self.objects.find(&self.words, word.as_slice()) {
                Some(object) => objects.push(object)?,
                None => return Ok(None),
            }
        }
        Ok(Some(objects))
    }
}
