ghost use Rattle.std.specs.Prelude.{◌≡◌, [], map, IfOk};
ghost use Rattle.plan_text.specs.Coming.{step_of};

use htn_base::{List, Memory, Text};
use plan_model::GroundAction;
use std::alloc::Global;
use std::marker::Model;

/// A step whose words are slices of the text that it was read from. Its room serves the next step again.
pub struct Step<'t> {
    pub(crate) words: Vec<&'t [u8]>,
}

impl Drop for Step<'_> {
    fn drop(self) {
        let Step { words: _ } = self;
    }
}

impl<'t> Model for Step<'t> {
    ghost use Rattle.std.specs.Prelude.{map};
    ghost use Rattle.plan_model.specs.declared.steps.GroundAction.{GroundAction};
    ghost use Rattle.plan_text.specs.Coming.{step_of};

    ghost Value = { GroundAction };

    ghost view = { λ step. step_of (map (λ word. word.now) step.words.items) };
}

impl<'t> Step<'t> {
    /// A step without a word. It takes no memory yet.
    pub fn new(alloc: Global) -> Step<'t>
        ensures empty { result ≡ step_of [] }
    {
        Step {
            words: Vec::new(alloc),
        }
    }

    /// The name.
    pub fn name(&self) -> &'t [u8]
        ensures name { result.now ≡ self.now.name }
    {
        match self.words.as_slice() {
            [] => b"",
            [name, ..] => name,
        }
    }

    /// The arguments.
    pub fn args(&self) -> &[&'t [u8]]
        ensures args { map (λ word. word.now) result.now ≡ self.now.args }
    {
        match self.words.as_slice() {
            [] => &[],
            [_, args @ ..] => args,
        }
    }

    /// The step with words of its own.
    pub(crate) fn copy(&self, alloc: Global) -> Result<GroundAction, Memory>
        ensures equal { IfOk result (λ step. step ≡ self.now) }
    {
        let mut args = List::new(alloc);
        for arg in self.args() {
            args.put(Text::from_slice(alloc, arg))?;
        }
        let name = Text::from_slice(alloc, self.name())?;
        Ok(GroundAction { name, args })
    }
}
