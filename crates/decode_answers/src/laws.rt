//! The laws, each the contract of a function that does nothing.

ghost use Rattle.decode_answers.specs.DecodeLaws.{EachIsDecodedOnce, EachIsDecodedSomehow, ValuesAreDecodedAlike};

/// A list shows one plan, or fails at one step for one cause, and not both.
pub fn each_is_decoded_once()
    ensures { EachIsDecodedOnce }
{}

/// A list shows a plan, or fails.
pub fn each_is_decoded_somehow()
    ensures { EachIsDecodedSomehow }
{}

/// The values of two texts are decoded alike.
pub fn values_are_decoded_alike()
    ensures { ValuesAreDecodedAlike }
{}
