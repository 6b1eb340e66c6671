//! Rows that two sides have each taken on from one base: which side's row stands, and what the two come to cell by cell.
//!
//! The crates above use the clauses of [`decide_row`] and [`merge_row`], which are the row rule (`RowRule` of
//! `tuple_codec`).
#![tactic(auto)]

mod decisions;
mod outcomes;

pub use decisions::{Decision, decide_row};
pub use outcomes::{RowOutcome, merge_row};
