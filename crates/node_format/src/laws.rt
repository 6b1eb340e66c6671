//! Laws about what a node is, for the crates above.

ghost use Rattle.node_format.specs.Faults.{HasOneSpelling};
ghost use Rattle.node_format.specs.Found.{FindsItems};

/// Two nodes with the same bytes are one: call it where a proof needs this. It does nothing.
pub fn law_of_spelling()
    ensures { HasOneSpelling }
{}

/// A node's items are found in its bytes. It does nothing.
pub fn law_of_items()
    ensures { FindsItems }
{}
