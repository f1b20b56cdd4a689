//! The law, the contract of a function that does nothing.

ghost use Rattle.ground_answers.specs.GroundLaws.{ValuesHaveOneGroundBound};

/// The values of two texts have the same ground bound, the same named cycle, and as much of them is reached.
pub fn values_have_one_ground_bound()
    ensures { ValuesHaveOneGroundBound }
{}
