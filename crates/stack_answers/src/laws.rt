//! The laws, each the contract of a function that does nothing.

ghost use Rattle.stack_answers.specs.StackDecodeLaws.{EachIsStackDecodedOnce, EachIsStackDecodedSomehow, ValuesAreStackDecodedAlike};

/// A list shows one plan, or fails at one step for one cause, and not both.
pub fn each_is_stack_decoded_once()
    ensures { EachIsStackDecodedOnce }
{}

/// A list shows a plan, or fails.
pub fn each_is_stack_decoded_somehow()
    ensures { EachIsStackDecodedSomehow }
{}

/// The values of two texts are decoded alike.
pub fn values_are_stack_decoded_alike()
    ensures { ValuesAreStackDecodedAlike }
{}
