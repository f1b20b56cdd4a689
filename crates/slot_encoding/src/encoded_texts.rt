//! All encoded values of a compiled problem, over tables that have all its words, have the same two texts.
//!
//! They say the same in one order once each number of a name or a type is replaced by its words, and the two texts of a PDDL value
//! are a function of what it says. So what prints one of these values prints them all, and no code has to follow which table it is.
//!
//! With more slots the texts grow evenly: by a step for each slot past the first, and by so many bytes for each digit past the
//! first of a slot's number, wherever the source names no object past its own (`from-few` of
//! `proofs/encoded_texts/growth/FewSlots`). So the lengths with one slot, two and ten tell those with any number.
//!
//! They stand on the encoded value and on the printed texts of `plan_texts`. The code that
//! prints (`problem_texts`) and the proof about plans (`plan_proof`) both stand on them. The contract used above:
//! `encoded_values_say_the_same`, in proofs as the lemma `encoded_texts-same` of `proofs/encoded_texts/SameTexts`.

mod laws;

pub use laws::{
    encoded_values_say_the_same, encoded_values_say_the_same_by, texts_are_what_is_said,
};
