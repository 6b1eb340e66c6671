//! Laws about expressions, for the crates above: call one where a proof needs it. None does anything.

ghost use Rattle.std.specs.Prelude.{ℕ};
ghost use Rattle.sql_laws.specs.GrammarLaws.{HasOneTree, ReadsBack, ReadsBackAt, ReadsTrees, StopsForGood};

/// A tree that is written with each operand in parentheses, of which at most 64 are open at one place, is read as that tree, and what
/// follows is left, where no expression goes on with it. So it is at each other limit.
pub fn law_of_reading_back()
    ensures any { ReadsBack }
    ensures at_each_limit { (depth : ℕ) → ReadsBackAt depth }
{}

/// No pieces begin with the spellings of two trees, where each ends.
pub fn law_of_one_tree()
    ensures { HasOneTree }
{}

/// Whatever is read is a tree: no list in it is empty.
pub fn law_of_trees()
    ensures { ReadsTrees }
{}

/// Where reading stops at a piece, no other pieces behind that one let it go on.
pub fn law_of_stops()
    ensures { StopsForGood }
{}
