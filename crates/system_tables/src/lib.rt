//! What a SELECT finds in the system tables, for a session in a transaction.
#![tactic(auto)]

mod branches;
mod cells;
mod changes;
mod commits;
mod conflicts;
mod counts;
mod entries;
mod listing;
mod lists;
mod log;
mod names;
mod parents;
mod sources;
mod tables;
mod violations;

pub use entries::{ListEntry, Listed};
pub use lists::{columns_of, entries_of};
pub use sources::{system_rows, system_sources};
