//! The laws, each the contract of a function that does nothing.

ghost use Rattle.encode_answers.specs.EncodeLaws.{EachIsEncodedOnce, EachIsEncodedSomehow, ValuesAreEncodedAlike};
ghost use Rattle.encode_answers.specs.EncodeLaws.{EachIsSpelledOnce, NoWidthIsPastTheBound};

/// A plan comes to one text, to its length, or to one sentence that says why there is none.
pub fn each_is_encoded_once()
    ensures { EachIsEncodedOnce }
{}

/// And it comes to one of these.
pub fn each_is_encoded_somehow()
    ensures { EachIsEncodedSomehow }
{}

/// With any number of slots the steps of a plan are the same, and so is its width.
pub fn each_is_spelled_once()
    ensures { EachIsSpelledOnce }
{}

/// No plan needs more slots than the bound of its problem.
pub fn no_width_is_past_the_bound()
    ensures { NoWidthIsPastTheBound }
{}

/// A hierarchical plan comes to the same over the values of two texts.
pub fn values_are_encoded_alike()
    ensures { ValuesAreEncodedAlike }
{}
