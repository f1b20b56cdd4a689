//! The tokens of a text: parentheses and words with their places, and the list that each parenthesis closes.
//!
//! Stands on the definitions at the root. The contract used above: `read` and
//! `read_with_index` answer a text exactly where it has none of the faults 1 to 4, else the least of them; its
//! tokens are the defined ones, and each word is the source at its span. A token is asked for by its number, or by
//! its `Position`, from which on tokens are read one after another and none is looked up.

mod classes;
mod closings;
mod ends;
mod faults;
mod index;
mod marks;
mod positions;
mod read_error;
mod sexprs;
mod tokens;

pub use positions::Position;
pub use read_error::ReadError;
pub use sexprs::{Sexprs, read, read_with_index};
pub use tokens::{Kind, Token};
