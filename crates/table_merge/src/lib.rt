//! Tables that two sides have each taken on from one base, merged key by key in a draft.
//!
//! The crates above use the clauses of [`merge_table`] and [`merge_kept_table`], over the definitions of `specs/Merging.antt`, and the laws.
#![tactic(auto)]

mod changing;
mod deciding;
mod faults;
mod keyed;
mod laws;
mod limits;
mod merging;
mod sides;
mod skipping;
mod walking;

pub use faults::MergeFault;
pub use laws::{law_of_merged_schemas, law_of_merged_tables};
pub use merging::{count_conflicts, merge_table};
pub use skipping::merge_kept_table;
