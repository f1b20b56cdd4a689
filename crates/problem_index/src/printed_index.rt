ghost use Rattle.std.specs.Prelude.{ℕ, List, ◌≡◌, ◌++◌, ◌<◌, ◌^◌, length, codes, IfOk, MatchOption};
ghost use Rattle.std.specs.Str.{bytes_eq};
ghost use Rattle.plan_model.specs.Parts.{AreListed};
ghost use Rattle.problem_index.specs.Printed as spec;

use crate::index::Index;
use crate::places::Places;
use crate::printed::printed_words;
use htn_base::Memory;
use plan_model::{Compiled, MethodPlan};
use std::alloc::Global;

/// What the name of a printed action stands for: an action, the check of a method, or a method, by its place in the compiled
/// problem.
#[derive(Clone, Copy)]
pub enum PrintedName {
    Action(u32),
    Check(u32),
    Method(u32),
}

/// Where the actions, methods and objects of a compiled problem stand, by their printed words. `methods`: those beside the top
/// one, which has a word of its own.
pub struct PrintedIndex {
    index: Index,
    methods: Places,
}

impl Drop for PrintedIndex {
    fn drop(self) {
        let PrintedIndex {
            index: _,
            methods: _,
        } = self;
    }
}

impl PrintedIndex {
    /// The index of the compiled problem.
    pub fn new(alloc: Global, compiled: &Compiled) -> Result<PrintedIndex, Memory>
        requires listed { AreListed compiled.now.hddl.types }
        requires few_objects { length compiled.now.hddl.objects < 2 ^ 32 }
        requires few_actions { length compiled.now.hddl.actions < 2 ^ 32 }
        requires few_methods { length compiled.now.methods < 2 ^ 32 }
        ensures index { IfOk result (spec.IsPrintedIndex compiled.now) }
    {
        let hddl = &compiled.hddl;
        let methods = Places::of(alloc, hddl.names.len(), beside_top(compiled))?;
        let printed = printed_words(alloc, &hddl.names)?;
        let index = Index::over(alloc, printed, &hddl.types, &hddl.objects, &hddl.actions)?;
        Ok(PrintedIndex { index, methods })
    }

    /// The index of the problem in its printed words, which finds the objects.
    pub fn index(&self) -> &Index
        ensures { result.now ≡ self.now.index }
    {
        &self.index
    }

    /// What the name of a printed action stands for.
    pub fn find(&self, compiled: &Compiled, word: &[u8]) -> Option<PrintedName>
        requires names { spec.HasPrintedNames compiled.now }
        requires few { length compiled.now.methods < 2 ^ 32 }
        requires index { spec.IsPrintedIndex compiled.now self.now }
        ensures { spec.StandsFor compiled.now word.now result }
    {
        if is_start(word) {
            if compiled.methods.len() == 0 {
                return None;
            }
            return Some(PrintedName::Method(0));
        }
        if let Some(name) = behind(b"htn_m_", word) {
            let place = self.method(compiled, name)?;
            return Some(PrintedName::Method(place));
        }
        if let Some(name) = behind(b"htn_c_", word) {
            let place = self.method(compiled, name)?;
            let plan = compiled.methods.get(place as usize)?;
            if plan.checked {
                return Some(PrintedName::Check(place));
            }
            return None;
        }
        let place = self.index.action_place(word)?;
        Some(PrintedName::Action(place))
    }

    /// The place of the method beside the top one whose printed name this is.
    fn method(&self, compiled: &Compiled, name: &[u8]) -> Option<u32>
        requires few { length compiled.now.methods < 2 ^ 32 }
        requires index { spec.IsPrintedIndex compiled.now self.now }
        ensures { spec.IsTheMethod compiled.now name.now result }
    {
        let place = self.methods.find(self.index.words(), name)?;
        Some(place + 1)
    }
}

/// The methods beside the top one.
fn beside_top(compiled: &Compiled) -> &[MethodPlan]
    ensures { result.now ≡ spec.others compiled.now.methods }
{
    match compiled.methods.as_slice().split_first() {
        Some((_, others)) => others,
        None => &[],
    }
}

/// Whether it is the word of the top method.
fn is_start(word: &[u8]) -> bool
    ensures { result ≡ bytes_eq word.now (codes "htn_start") }
{
    let start: &[u8] = b"htn_start";
    word == start
}

/// What stands behind this beginning of the word, where it begins so.
fn behind<'w>(beginning: &[u8], word: &'w [u8]) -> Option<&'w [u8]>
    ensures { MatchOption result ((rest : List ℕ) → word.now ≡ beginning.now ++ rest → ⊥) (λ rest. word.now ≡ beginning.now ++ rest.now) }
{
    word.strip_prefix(beginning)
}
