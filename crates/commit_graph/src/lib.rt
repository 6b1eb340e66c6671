//! Commits as chunks: written into drafts, and read back.
//!
//! The crates above use the clauses of the calls, over `commit_bytes` (a commit's written form, in `schema_model`),
//! `specs/Commits.antt` (what a commit is, and which is found at an address), `specs/Standing.antt` (which stand) and
//! `specs/Walks.antt` (walks to ancestors, for those that don't want all of them).
#![tactic(auto)]

mod ancestry;
mod commits;
mod fields;
mod laws;
mod parts;
mod reading;
mod walks;
mod writing;

pub use ancestry::ancestors;
pub use commits::CommitRecord;
pub use laws::{law_of_commits, law_of_standing_commits};
pub use parts::{height, is_commit, root_of};
pub use reading::{read_commit, read_commit_bytes};
pub use walks::{AncestorWalk, Rank};
pub use writing::write_commit;
