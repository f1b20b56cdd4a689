use command_words::PrintedForm;
use plan_model::{Checks, Slots, Style};

/// How a problem is translated: with so many slots, in this form, where a method takes free slots by this rule, in this style,
/// with these checks of preconditions.
#[derive(Clone, Copy)]
pub(crate) struct Manner {
    pub(crate) slots: u32,
    pub(crate) form: PrintedForm,
    pub(crate) rule: Slots,
    pub(crate) style: Style,
    pub(crate) checks: Checks,
}
