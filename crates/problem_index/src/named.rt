ghost use Rattle.std.specs.Prelude.{◌≡◌};

use htn_base::Name;
use plan_model::{ActionSchema, MethodPlan, Object, TaskSchema};

/// What has a name.
pub trait Named {
    ghost use Rattle.htn_base.specs.declared.name.Name.{Name as name};

    ghost named: { Self → name };

    /// Its name.
    fn name(&self) -> Name
        ensures { result ≡ named self.now };
}

impl Named for ActionSchema {
    ghost named = { λ action. action.name };

    fn name(&self) -> Name {
        self.name
    }
}

impl Named for TaskSchema {
    ghost named = { λ task. task.name };

    fn name(&self) -> Name {
        self.name
    }
}

impl Named for Object {
    ghost named = { λ object. object.name };

    fn name(&self) -> Name {
        self.name
    }
}

impl Named for MethodPlan {
    ghost named = { λ plan. plan.schema.name };

    fn name(&self) -> Name {
        self.schema.name
    }
}
