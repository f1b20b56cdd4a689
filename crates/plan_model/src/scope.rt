ghost use Rattle.std.specs.Prelude.{◌≡◌, ◌+◌, IfOk, IfErr, Some, slice_get, length};
ghost use Rattle.plan_model.specs.Scopes.{in_force};

use crate::terms::Param;

/// The variables in force: those of the lists around, and behind them those of the innermost list.
#[derive(Clone, Copy)]
pub enum Scope<'a> {
    Empty,
    Within(&'a Scope<'a>, &'a [Param]),
}

impl Scope<'_> {
    /// The k-th variable in force, or how far behind the last one it would stand.
    pub fn find(&self, k: usize) -> Result<Param, usize>
        ensures found { IfOk result (λ param. slice_get (in_force self.now) k ≡ Some param) }
        ensures missing { IfErr result (λ left. k ≡ length (in_force self.now) + left) }
    {
        match self {
            Scope::Empty => Err(k),
            Scope::Within(outer, params) => match outer.find(k) {
                Ok(param) => Ok(param),
                Err(left) => match params.get(left) {
                    Some(param) => Ok(*param),
                    None => Err(left - params.len()),
                },
            },
        }
    }
}
