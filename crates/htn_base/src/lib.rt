//! What every crate of the translator stands on: the answer for want of memory, lists and texts that
//! contracts see as lists, rows of numbers in few bytes, the places of faults, and names.
//!
//! Stands on `itoa`. The contract used above: words and their numbers are one to one.
#![tactic(auto)]

mod boxed;
mod fault;
mod lengths;
pub mod limits;
mod list;
mod marks;
mod memory;
mod name;
mod packed;
mod rows;
mod text;
mod word_list;
mod words;

pub use boxed::Boxed;
pub use fault::{Fault, Span};
pub use lengths::number;
pub use list::List;
pub use marks::Marks;
pub use memory::Memory;
pub use name::{Name, NameTable};
pub use packed::{PackedNumbers, PackedPart};
pub use rows::{PackedRow, PackedRows};
pub use text::Text;
pub use word_list::WordList;
pub use words::{
    esc, is_name, is_plain, is_reserved_in_any_case, names_stay_apart, slot_name, slot_number,
};
