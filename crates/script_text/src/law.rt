//! That a text shows one run alone, and the text of a stop one stop.

ghost use Rattle.script_text.specs.Shown.{HasOneReading, HasOneStop};

/// A text shows one run alone: two runs that print the same bytes have the same sessions, the same replies as they are
/// printed, the same statements refused for want of memory or for a collision of the same byte strings, and the same order
/// of moments.
pub fn one_reading()
    ensures { HasOneReading }
{}

/// So does the text of an order that can't be followed: two stops that print the same bytes, of sessions with the same names, are at
/// the same item, and the same statements before it were refused for want of memory or for a collision of the same byte strings.
pub fn one_stop()
    ensures { HasOneStop }
{}
