//! Sheets: what is put on one is appended to a text, up to a limit of bytes, and counted, the bytes past the limit too.
//!
//! What prints also counts: whoever prints on a sheet learns the length of the whole, of which the
//! text has all or nothing more than the limit. The contract used above: bytes that are put one after another are put as one
//! (`specs/sheets/Sheets`), and at the end the sheet says whether the text took all of them, or how many there are, or that memory
//! was wanting.

mod sheet;

pub use sheet::{Ended, Sheet};
