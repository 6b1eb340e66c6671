//! Databases that two sides have each taken on from one base, merged table by table in a draft, and the commit rule on branch records.
//!
//! The crates above use the clauses of [`merge_roots`], over the definitions of `schema_merge`, and of [`candidate`] and [`unmoved_candidate`], over those of `plain_sessions`.
#![tactic(auto)]

mod candidates;
mod changing;
mod choosing;
mod counting;
mod deciding;
mod judging;
mod laws;
mod merging;
mod names;
mod reading;
mod settling;
mod tables;

pub use candidates::Candidate;
pub use deciding::{candidate, unmoved_candidate};
pub use merging::{Merged, merge_roots};
