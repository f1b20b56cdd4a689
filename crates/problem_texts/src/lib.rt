//! The two printed texts of a compiled problem, in either style, within a limit, and how long they are.
//!
//! Stands on `slot_encoder`, which makes the printed problem part by part, and on `pddl_printer`, which puts it on sheets. The
//! printed problem is never made as a value, which would be far larger than its texts: its head is made once, and each action is
//! made, put and let go. In style flat its quantifiers over the slots are written out slot by slot from the encoding in style adl.
//! The law behind that: the printed problem in style flat is the one in style adl with the slots written out
//! (`flat_is_written_out`). The lengths with many slots are worked out from those with one slot, two and ten, by the law of
//! `slot_encoding::encoded_texts` on how the texts grow, which holds where the source names no object past its own; so `sizes`
//! takes no more time for more slots, and a text that is too long is refused before it is made. Where what the source writes is not
//! little beside the slots, all is counted as it is printed. The contract used above: `texts_of` gives the two texts of an encoded
//! value that has all its words and can be printed wherever the problem is sound, if neither is longer than the limit; else the
//! length of the first that is, which is that of each encoded value.
#![tactic(auto)]

mod flat_laws;
mod growth;
mod lengths;
mod named_objects;
mod pages;
mod printing;
mod ranges;

pub use flat_laws::flat_is_written_out;
pub use lengths::sizes;
pub use printing::{Printed, Sizes, Texts, texts_of};
