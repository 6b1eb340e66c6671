//! Laws about trees, for the crates above: call one where a proof needs it. None does anything.

ghost use Rattle.prolly_tree.specs.TreeLaws.{CutsApart};
ghost use Rattle.prolly_tree.specs.Standing.{TreesAreOne, TreesHaveRoots, TreesLead};

/// A list is cut apart wherever an item ends its node.
pub fn law_of_cutting()
    ensures { CutsApart }
{}

/// A tree that stands leads to its rows.
pub fn law_of_rows()
    ensures { TreesLead }
{}

/// A tree that stands and has a row has a root, whose every node is cut as the boundary rule says.
pub fn law_of_roots()
    ensures { TreesHaveRoots }
{}

/// An address stands for one list of rows, and two addresses for the same rows exactly where they are the same.
pub fn law_of_addresses()
    ensures { TreesAreOne }
{}
