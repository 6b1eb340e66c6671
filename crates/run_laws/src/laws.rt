//! The laws of runs, each on a function that does nothing.

ghost use Rattle.run_laws.specs.Laws.{LinesAreRun, OrdersAreFollowed, StatementsAreServed};

/// A statement takes at most two moments, and its session then stands before the next one.
pub fn law_of_statements()
    ensures { StatementsAreServed }
{}

/// A script's lines, each served with no other session between its moments, are the machine's run along the order that they made.
pub fn law_of_lines()
    ensures { LinesAreRun }
{}

/// The items of a given order, each followed by its session, are the machine's run along it, or its stop where an item can't be followed.
pub fn law_of_orders()
    ensures { OrdersAreFollowed }
{}
