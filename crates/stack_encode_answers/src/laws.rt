//! The laws, each the contract of a function that does nothing.

ghost use Rattle.stack_encode_answers.specs.StackEncodeLaws.{EachIsStackedOnce, EachIsStackedSomehow, EachIsOneStack};
ghost use Rattle.stack_encode_answers.specs.StackEncodeLaws.{WidthIsThatOfSlots, ValuesAreStackedAlike};

/// A plan comes to one text, to its length, or to one sentence that says why there is none.
pub fn each_is_stacked_once()
    ensures { EachIsStackedOnce }
{}

/// And it comes to one of these.
pub fn each_is_stacked_somehow()
    ensures { EachIsStackedSomehow }
{}

/// With any number of cells the steps of a plan are the same, and so is its width.
pub fn each_is_one_stack()
    ensures { EachIsOneStack }
{}

/// A plan is as wide as with slots.
pub fn width_is_that_of_slots()
    ensures { WidthIsThatOfSlots }
{}

/// A hierarchical plan comes to the same over the values of two texts.
pub fn values_are_stacked_alike()
    ensures { ValuesAreStackedAlike }
{}
