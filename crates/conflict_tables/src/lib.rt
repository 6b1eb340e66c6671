//! The conflicts that a merge left in a table: read, dropped, and resolved for theirs.
//!
//! The crates above use `specs/Conflicts.antt`: conflicts with their bytes, a table without some of its conflicts, and the edits that make
//! rows theirs.
#![tactic(auto)]

mod dropping;
mod entries;
mod reading;

pub use dropping::{copy_roots, drop_conflicts, removals};
pub use entries::ConflictEntry;
pub use reading::{conflicts, theirs_edits};
