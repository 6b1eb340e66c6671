//! The laws of the kinds of values, each on a function that does nothing.

ghost use Rattle.check_laws.specs.KindLaws.{NeverMismatches, ShowsScales, ValuesHaveKinds, WorthsHaveKinds};

/// What an expression that a text can give is worth on a fitting row has the kind that binding found, and so has its value.
pub fn law_of_kinds()
    ensures worths { WorthsHaveKinds }
    ensures values { ValuesHaveKinds }
{}

/// A value of a kind that goes to a column isn't refused there as one that doesn't.
pub fn law_of_assignment()
    ensures { NeverMismatches }
{}

/// A decimal of its kind is shown under a type that tells its scale.
pub fn law_of_shown_scales()
    ensures { ShowsScales }
{}
