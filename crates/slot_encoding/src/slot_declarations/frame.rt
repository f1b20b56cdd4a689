use crate::slot_declarations::basis::Basis;
use htn_base::NameTable;
use plan_model::{Compiled, Style};

/// What all parts of the printed problem are made from: the compiled problem, the words of the printed one, the number of
/// slots, the style, and what is worked out once.
#[derive(Clone, Copy)]
pub struct Frame<'a> {
    pub compiled: &'a Compiled,
    pub printed: &'a NameTable,
    pub slots: u32,
    pub style: Style,
    pub basis: &'a Basis,
}
